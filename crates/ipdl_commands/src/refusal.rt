//! Why a command on an item is refused, and the line that says so.

ghost use Rattle.std.specs.Prelude.{◌≡◌, ◌++◌, IfOk, OnOk, string_bytes};
ghost use Rattle.ipdl_commands.specs.Lines.{IfRefused, refusal_words, item_line};
ghost use Rattle.ipdl_commands.specs.Views.{refusal_of};
ghost use Rattle.ipdl_printing.specs.Texts.{spaced};

use crate::fault::CommandFault;
use ipdl_base::NoMemory;
use std::alloc::Global;

// Why it is refused.
#[derive(Clone, Copy)]
pub(crate) enum Refusal<'a> {
    // No protocol has the name.
    NoItem,
    // It has inputs, first this one.
    OpenInput(&'a str),
    // An abstract symbol occurs, first the one of this name.
    AbstractSymbol(&'a str),
    // The tape has fewer bits than are wanted.
    ShortTape { want: u64, got: u64 },
    // The name of a hidden channel stands for another channel too, first this one.
    NamesRepeat(&'a str),
}

// The words that tell it.
fn push_refusal(text: &mut String, refusal: Refusal) -> Result<(), NoMemory>
    ensures { OnOk result (string_bytes text.new ≡ string_bytes text.old ++ spaced (refusal_words (refusal_of refusal.entry))) }
{
    match refusal {
        Refusal::NoItem => text.push_str("NoItem")?,
        Refusal::OpenInput(channel) => write!(text, "OpenInput {channel}")?,
        Refusal::AbstractSymbol(symbol) => write!(text, "AbstractSymbol {symbol}")?,
        Refusal::ShortTape { want, got } => write!(text, "ShortTape {want} {got}")?,
        Refusal::NamesRepeat(channel) => write!(text, "NamesRepeat {channel}")?,
    }
    Ok(())
}

// The line of an item that is refused.
fn item_line(alloc: Global, item: &str, refusal: Refusal) -> Result<Vec<u8>, NoMemory>
    ensures { IfOk result (λ text. text.items ≡ item_line item.now (refusal_of refusal.entry)) }
{
    let mut text = String::new(alloc);
    write!(text, "item {item} ")?;
    push_refusal(&mut text, refusal)?;
    text.push_str("\n")?;
    Ok(text.into_bytes())
}

// The fault of an item that is refused.
pub(crate) fn refused(alloc: Global, item: &str, refusal: Refusal) -> CommandFault
    ensures { IfRefused result (λ text. text ≡ item_line item.now (refusal_of refusal.entry)) }
{
    match item_line(alloc, item, refusal) {
        Ok(line) => CommandFault::Refused(line),
        Err(_) => CommandFault::Memory,
    }
}
