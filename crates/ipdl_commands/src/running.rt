//! The command `run`: what a closed protocol writes at its outputs on a tape.

ghost use Rattle.std.specs.Prelude.{◌≡◌, ◌++◌, Some, IsTrue, IfOk, IfErr, IfSome};
ghost use Rattle.ipdl_base.specs.Names.{is_name};
ghost use Rattle.ipdl_commands.specs.Lines.{IfRefused};
ghost use Rattle.ipdl_forms.specs.Networks.{network_named};
ghost use Rattle.ipdl_commands.specs.Lookups.{IsTypedNetwork};
ghost use Rattle.ipdl_commands.specs.Running.{coins_line, output_lines, IsRunAnswer, IsRunRefusal, AnswersRun, RefusesRun};
ghost use Rattle.ipdl_forms.specs.Networks.{network_of};
ghost use Rattle.ipdl_forms.specs.Documents.{document_of};
ghost use Rattle.ipdl_printing.specs.Printing.{symbol_name};
ghost use Rattle.ipdl_term.specs.Typing.{port_names};

use crate::fault::CommandFault;
use crate::refusal::{Refusal, refused};
use crate::values::{push_coins, push_outputs};
use ipdl_base::{Bits, Name, NoMemory};
use ipdl_forms::{Document, ProtocolItem};
use ipdl_mean::{Net, NetFault, SolveFault};
use ipdl_sig::Sig;
use ipdl_term::Port;
use ipdl_truth::tables_interpret;
use std::alloc::Global;

// The name of the symbol of a number.
fn symbol_name<'a>(sig: &'a Sig, number: u32) -> &'a str
    ensures { result.now ≡ symbol_name sig.now number }
{
    match sig.symbol(number) {
        Some(symbol) => symbol.name.text(),
        None => "",
    }
}

// The text of what is written at the outputs.
fn written_text(
    alloc: Global,
    name: &str,
    coins: u64,
    outputs: &[Port],
    values: &[Option<Bits>],
) -> Result<Vec<u8>, NoMemory>
    ensures { IfOk result
        (λ text. text.items ≡ coins_line name.now coins ++ output_lines (port_names outputs.now) values.now) }
{
    let mut text = Vec::new(alloc);
    push_coins(&mut text, name, coins)?;
    push_outputs(&mut text, outputs, values)?;
    Ok(text)
}

// The protocol of the item, run on the tape.
fn run_item(
    alloc: Global,
    sig: &Sig,
    item: &ProtocolItem,
    name: &str,
    tape: &[bool],
) -> Result<Vec<u8>, CommandFault>
    requires { IsTypedNetwork sig.now (network_of item.now) }
    ensures answered { IfOk result
        (λ text. IsRunAnswer sig.now name.now tape.now (Some (network_of item.now)) text.items) }
    ensures refused { IfErr result
        (λ fault. IfRefused fault (IsRunRefusal sig.now name.now tape.now (Some (network_of item.now)))) }
{
    tables_interpret(sig);
    let net = match Net::build(alloc, sig, item) {
        Ok(net) => net,
        Err(NetFault::OpenInput { name: input }) => {
            return Err(refused(alloc, name, Refusal::OpenInput(input.text())));
        }
        Err(NetFault::AbstractSymbol { symbol }) => {
            return Err(refused(
                alloc,
                name,
                Refusal::AbstractSymbol(symbol_name(sig, symbol)),
            ));
        }
        Err(NetFault::Memory) => return Err(CommandFault::Memory),
    };
    match net.solve(alloc, tape) {
        Ok(values) => {
            let outputs = item.interface.outputs.as_slice();
            match written_text(alloc, name, net.coins(), outputs, values.as_slice()) {
                Ok(text) => Ok(text),
                Err(_) => Err(CommandFault::Memory),
            }
        }
        Err(SolveFault::ShortTape { want, got }) => {
            Err(refused(alloc, name, Refusal::ShortTape { want, got }))
        }
        Err(SolveFault::Memory) => Err(CommandFault::Memory),
    }
}

/// Runs the protocol that has the name on the tape: the text with what it writes at its outputs, or
/// the line that says why it is refused. A caller shows that the text is a name, and that what has
/// it is well typed and small. Bits of the tape past the coins make no difference.
pub fn run_text(
    alloc: Global,
    document: &Document,
    name: &str,
    tape: &[bool],
) -> Result<Vec<u8>, CommandFault>
    requires name { IsTrue (is_name name.now) }
    requires typed { IfSome (network_named (document_of document.now).entries name.now)
        (IsTypedNetwork document.now.sig) }
    ensures answered { IfOk result
        (λ text. AnswersRun (document_of document.now) name.now tape.now text.items) }
    ensures refused { IfErr result
        (λ fault. IfRefused fault (RefusesRun (document_of document.now) name.now tape.now)) }
{
    let Ok(key) = Name::of_text(alloc, name) else {
        return Err(CommandFault::Memory);
    };
    match document.protocol(&key) {
        Some(item) => run_item(alloc, &document.sig, item, name, tape),
        None => Err(refused(alloc, name, Refusal::NoItem)),
    }
}
