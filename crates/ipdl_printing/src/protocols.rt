//! Pushes the texts of protocols, with the parts of a `par` and the ports of a `new` gathered.

ghost use Rattle.std.specs.Prelude.{◌≡◌, [], ◌∷◌, length, OnOk};
ghost use Rattle.ipdl_printing.specs.Printing.{port_tree, printed_protocol, protocol_tree};
ghost use Rattle.ipdl_printing.specs.Writes.{WritesTree, WritesMore};
ghost use Rattle.ipdl_term.specs.Views.{protocol_of};
ghost use Rattle.ipdl_term.specs.Within.{IsProtocolWithin};
ghost use Rattle.ipdl_tree.specs.Trees.{group};
ghost use Rattle.ipdl_tree.specs.Views.{forest};

use crate::reactions::push_react_part;
use crate::tokens::{push_name, push_name_part, push_number_part};
use ipdl_base::{Name, NoMemory};
use ipdl_sig::Sig;
use ipdl_term::Proto;

// A hidden channel with its width.
pub(crate) fn push_port(text: &mut Vec<u8>, channel: &Name, width: u8) -> Result<(), NoMemory>
    ensures { OnOk result (WritesTree text.old.items text.new.items (port_tree channel.now width)) }
{
    text.push(b'(')?;
    push_name(text, channel)?;
    push_number_part(text, u32::from(width))?;
    text.push(b')')?;
    Ok(())
}

// The ports of the `new` that the protocol is, after another port.
fn push_ports(text: &mut Vec<u8>, sig: &Sig, proto: &Proto) -> Result<(), NoMemory>
    ensures { OnOk result
        (WritesMore text.old.items text.new.items (printed_protocol sig.now (protocol_of proto.now)).ports) }
{
    match proto {
        Proto::Nil | Proto::Out(_, _) | Proto::Par(_, _) => Ok(()),
        Proto::Hide(channel, width, rest) => {
            text.push(b' ')?;
            push_port(text, channel, *width)?;
            push_ports(text, sig, rest)
        }
    }
}

// The list of the ports of a `new`: this one, and those of the `new` that stands right in it.
fn push_port_list(
    text: &mut Vec<u8>,
    sig: &Sig,
    channel: &Name,
    width: u8,
    inner: &Proto,
) -> Result<(), NoMemory>
    ensures { OnOk result
        (WritesTree text.old.items text.new.items (group 0 (forest (port_tree channel.now width ∷ (printed_protocol sig.now (protocol_of inner.now)).ports)))) }
{
    text.push(b'(')?;
    push_port(text, channel, width)?;
    push_ports(text, sig, inner)?;
    text.push(b')')?;
    Ok(())
}

/// Pushes the text of the protocol. What stands in the right part of a `par` goes on with its
/// parts, as `(par (nil) (nil) (nil))`, and a `new` right in another one with its channels, as
/// `(new ((a 1) (b 2)) (nil))`. Where memory runs out, a part of the text may have been pushed.
#[cycle(protocol)]
pub fn push_proto(text: &mut Vec<u8>, sig: &Sig, proto: &Proto) -> Result<(), NoMemory>
    requires { IsProtocolWithin (length sig.now) (protocol_of proto.now) }
    ensures { OnOk result
        (WritesTree text.old.items text.new.items (protocol_tree sig.now (protocol_of proto.now))) }
{
    match proto {
        Proto::Nil => {
            text.extend_from_slice(b"(nil)")?;
            Ok(())
        }
        Proto::Out(c, r) => {
            text.extend_from_slice(b"(out")?;
            push_name_part(text, c)?;
            push_react_part(text, sig, 0, r)?;
            text.push(b')')?;
            Ok(())
        }
        Proto::Par(p, q) => {
            text.extend_from_slice(b"(par ")?;
            push_proto(text, sig, p)?;
            push_parts(text, sig, q)?;
            text.push(b')')?;
            Ok(())
        }
        Proto::Hide(c, w, inner) => {
            text.extend_from_slice(b"(new ")?;
            push_port_list(text, sig, c, *w, inner)?;
            push_body(text, sig, inner)?;
            text.push(b')')?;
            Ok(())
        }
    }
}

// The protocol as the further parts of a `par`.
#[cycle(protocol)]
pub(crate) fn push_parts(text: &mut Vec<u8>, sig: &Sig, proto: &Proto) -> Result<(), NoMemory>
    requires { IsProtocolWithin (length sig.now) (protocol_of proto.now) }
    ensures { OnOk result
        (WritesMore text.old.items text.new.items (printed_protocol sig.now (protocol_of proto.now)).parts) }
{
    text.push(b' ')?;
    match proto {
        Proto::Nil | Proto::Out(_, _) | Proto::Hide(_, _, _) => push_proto(text, sig, proto),
        Proto::Par(p, q) => {
            push_proto(text, sig, p)?;
            push_parts(text, sig, q)
        }
    }
}

// What stands in the `new` that the protocol is, or else the protocol, as a further part of a list.
#[cycle(protocol)]
fn push_body(text: &mut Vec<u8>, sig: &Sig, proto: &Proto) -> Result<(), NoMemory>
    requires { IsProtocolWithin (length sig.now) (protocol_of proto.now) }
    ensures { OnOk result
        (WritesMore text.old.items text.new.items ((printed_protocol sig.now (protocol_of proto.now)).body ∷ [])) }
{
    match proto {
        Proto::Hide(_, _, inner) => push_body(text, sig, inner),
        Proto::Nil | Proto::Out(_, _) | Proto::Par(_, _) => {
            text.push(b' ')?;
            push_proto(text, sig, proto)
        }
    }
}
