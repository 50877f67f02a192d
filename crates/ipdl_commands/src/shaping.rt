//! The command `shape`: the shape of a protocol, as a line.

ghost use Rattle.std.specs.Prelude.{◌≡◌, Some, IsTrue, IfOk, IfErr, IfSome, length};
ghost use Rattle.ipdl_base.specs.Names.{is_name};
ghost use Rattle.ipdl_commands.specs.Lines.{IfRefused};
ghost use Rattle.ipdl_commands.specs.Shapes.{AnswersShape, HasBodyWithin, IsShapeAnswer, IsShapeRefusal, RefusesShape};
ghost use Rattle.ipdl_forms.specs.Documents.{document_of};
ghost use Rattle.ipdl_forms.specs.Networks.{network_named, network_of};
ghost use Rattle.ipdl_printing.specs.Printing.{protocol_tree};
ghost use Rattle.ipdl_printing.specs.Texts.{line};
ghost use Rattle.ipdl_term.specs.Views.{protocol_of};
ghost use Rattle.ipdl_term.specs.Within.{IsProtocolWithin};
ghost use Rattle.ipdl_tree.specs.Spelling.{tree_text};

use crate::fault::CommandFault;
use crate::refusal::{Refusal, refused};
use ipdl_base::{Name, NoMemory};
use ipdl_forms::{Document, ProtocolItem};
use ipdl_norm::{ShapeFault, shape};
use ipdl_printing::push_proto;
use ipdl_sig::Sig;
use ipdl_term::Proto;
use std::alloc::Global;

// The protocol as a line.
fn proto_line(alloc: Global, sig: &Sig, proto: &Proto) -> Result<Vec<u8>, NoMemory>
    requires { IsProtocolWithin (length sig.now) (protocol_of proto.now) }
    ensures { IfOk result (λ text. text.items ≡ line (tree_text (protocol_tree sig.now (protocol_of proto.now)))) }
{
    let mut text = Vec::new(alloc);
    push_proto(&mut text, sig, proto)?;
    text.push(b'\n')?;
    Ok(text)
}

// The shape of the protocol of the item.
fn shape_item(
    alloc: Global,
    sig: &Sig,
    item: &ProtocolItem,
    name: &str,
) -> Result<Vec<u8>, CommandFault>
    requires { IsProtocolWithin (length sig.now) (protocol_of item.now.body) }
    ensures answered { IfOk result
        (λ text. IsShapeAnswer sig.now (Some (network_of item.now)) text.items) }
    ensures refused { IfErr result
        (λ fault. IfRefused fault (IsShapeRefusal name.now (Some (network_of item.now)))) }
{
    match shape(alloc, &item.body) {
        Ok(made) => match proto_line(alloc, sig, &made) {
            Ok(text) => Ok(text),
            Err(_) => Err(CommandFault::Memory),
        },
        Err(ShapeFault::NamesRepeat { name: channel }) => {
            Err(refused(alloc, name, Refusal::NamesRepeat(channel.text())))
        }
        Err(ShapeFault::Memory) => Err(CommandFault::Memory),
    }
}

/// The line of the shape of the protocol that has the name, or the line that says why it is refused.
/// A caller shows that the text is a name, and that what has it can be printed.
pub fn shape_text(alloc: Global, document: &Document, name: &str) -> Result<Vec<u8>, CommandFault>
    requires name { IsTrue (is_name name.now) }
    requires within { IfSome (network_named (document_of document.now).entries name.now)
        (HasBodyWithin (length document.now.sig)) }
    ensures answered { IfOk result
        (λ text. AnswersShape (document_of document.now) name.now text.items) }
    ensures refused { IfErr result
        (λ fault. IfRefused fault (RefusesShape (document_of document.now) name.now)) }
{
    let Ok(key) = Name::of_text(alloc, name) else {
        return Err(CommandFault::Memory);
    };
    match document.protocol(&key) {
        Some(item) => shape_item(alloc, &document.sig, item, name),
        None => Err(refused(alloc, name, Refusal::NoItem)),
    }
}
