//! The words of causes: why something is ill typed, and why a step is wrong.

ghost use Rattle.std.specs.Prelude.{◌≡◌, ◌++◌, [], ◌∷◌, IfOk, OnOk, codes, map, string_bytes};
ghost use Rattle.ipdl_printing.specs.Printing.{symbol_name};
ghost use Rattle.ipdl_printing.specs.Texts.{place_text, spaced};
ghost use Rattle.ipdl_script.specs.Views.{refusal_of};
ghost use Rattle.ipdl_top.specs.Lines.{after_blanks, cause_text, step_cause_text, truth_cause_text, value_text};
ghost use Rattle.ipdl_typing.specs.Answers.{cause_of, failure_of};

use ipdl_base::{Bits, Name, NoMemory};
use ipdl_printing::push_place;
use ipdl_script::Cause;
use ipdl_sig::Sig;
use ipdl_tree::{push_literal, push_number};
use ipdl_typing::{Ill, IllCause};
use std::alloc::Global;

// ---- of types

fn push_cause(text: &mut String, cause: &IllCause) -> Result<(), NoMemory>
    ensures { OnOk result (string_bytes text.new ≡ string_bytes text.old ++ cause_text (cause_of cause.now)) }
{
    match cause {
        IllCause::Width { want, got } => write!(text, "Width {want} {got}")?,
        IllCause::Unbound { number } => write!(text, "Unbound {number}")?,
        IllCause::NoSymbol { number } => write!(text, "NoSymbol {number}")?,
        IllCause::Unwritten { name } => write!(text, "Unwritten {}", name.text())?,
        IllCause::NotOutput { name } => write!(text, "NotOutput {}", name.text())?,
        IllCause::Twice { name } => write!(text, "Twice {}", name.text())?,
        IllCause::NewUnwritten { name } => write!(text, "NewUnwritten {}", name.text())?,
        IllCause::Missing { name } => write!(text, "Missing {}", name.text())?,
        IllCause::Interface { name } => write!(text, "Interface {}", name.text())?,
    }
    Ok(())
}

// A place with what is wrong there.
pub(crate) fn push_ill(text: &mut String, ill: &Ill) -> Result<(), NoMemory>
    ensures { OnOk result (string_bytes text.new ≡ string_bytes text.old ++ spaced (place_text (failure_of ill.now).path ∷ cause_text (failure_of ill.now).cause ∷ [])) }
{
    push_place(text, ill.path.parts())?;
    text.push_str(" ")?;
    push_cause(text, &ill.cause)
}

// That the whole term is ill typed.
fn ill_typed_text(alloc: Global, ill: &Ill) -> Result<String, NoMemory>
    ensures { IfOk result (λ text. string_bytes text ≡ spaced (codes "IllTyped" ∷ place_text (failure_of ill.now).path ∷ cause_text (failure_of ill.now).cause ∷ [])) }
{
    let mut text = String::new(alloc);
    text.push_str("IllTyped ")?;
    push_ill(&mut text, ill)?;
    Ok(text)
}

// ---- of truth

// The word with a blank and the name of the symbol.
fn symbol_text(alloc: Global, word: &str, sig: &Sig, symbol: u32) -> Result<Vec<u8>, NoMemory>
    ensures { IfOk result (λ text. text.items ≡ spaced (word.now ∷ symbol_name sig.now symbol ∷ [])) }
{
    let mut text = String::new(alloc);
    text.push_str(word)?;
    text.push_str(" ")?;
    if let Some(symbol) = sig.symbol(symbol) {
        text.push_str(symbol.name.text())?;
    }
    Ok(text.into_bytes())
}

// A blank, and a variable with its value.
fn push_value(text: &mut Vec<u8>, depth: u32, value: Bits) -> Result<(), NoMemory>
    ensures { OnOk result (text.new.items ≡ text.old.items ++ codes " " ++ value_text (depth, value)) }
{
    text.extend_from_slice(b" (x")?;
    push_number(text, u64::from(depth))?;
    text.push(b' ')?;
    push_literal(text, value)?;
    text.push(b')')?;
    Ok(())
}

// The values at which two expressions differ.
fn difference_text(alloc: Global, valuation: &[(u32, Bits)]) -> Result<Vec<u8>, NoMemory>
    ensures { IfOk result (λ text. text.items ≡ codes "NotSame" ++ after_blanks (map value_text valuation.now)) }
{
    let mut text = Vec::new(alloc);
    text.extend_from_slice(b"NotSame")?;
    for (depth, value) in valuation {
        push_value(&mut text, *depth, *value)?;
    }
    Ok(text)
}

// ---- of uses

// A word and a channel.
fn channel_text(alloc: Global, word: &str, channel: &Name) -> Result<String, NoMemory>
    ensures { IfOk result (λ text. string_bytes text ≡ spaced (word.now ∷ channel.now ∷ [])) }
{
    let mut text = String::new(alloc);
    text.push_str(word)?;
    text.push_str(" ")?;
    text.push_str(channel.text())?;
    Ok(text)
}

// Two channels get one name.
fn clash_text(alloc: Global, first: &Name, second: &Name) -> Result<String, NoMemory>
    ensures { IfOk result (λ text. string_bytes text ≡ spaced (codes "NotInjective" ∷ first.now ∷ second.now ∷ [])) }
{
    let mut text = String::new(alloc);
    write!(text, "NotInjective {} {}", first.text(), second.text())?;
    Ok(text)
}

// ---- of steps

// Why a step is wrong.
pub(crate) fn step_cause_text(alloc: Global, sig: &Sig, cause: &Cause) -> Result<Vec<u8>, NoMemory>
    ensures { IfOk result (λ text. text.items ≡ step_cause_text sig.now (refusal_of cause.now)) }
{
    Ok(match cause {
        Cause::NoPlace => format!(in alloc; "NoPlace")?.into_bytes(),
        Cause::NoVariable { number } => format!(in alloc; "NoVariable {number}")?.into_bytes(),
        Cause::NoMatch => format!(in alloc; "NoMatch")?.into_bytes(),
        Cause::Side(number) => format!(in alloc; "Side {number}")?.into_bytes(),
        Cause::NotResult => format!(in alloc; "NotResult")?.into_bytes(),
        Cause::IllTyped(ill) => ill_typed_text(alloc, ill)?.into_bytes(),
        Cause::Abstract { symbol } => symbol_text(alloc, "Abstract", sig, *symbol)?,
        Cause::Large { bits } => format!(in alloc; "Large {bits}")?.into_bytes(),
        Cause::TooWide { bits } => format!(in alloc; "TooWide {bits}")?.into_bytes(),
        Cause::NotSame { valuation } => difference_text(alloc, valuation.as_slice())?,
        Cause::NotForm { bit } => format!(in alloc; "NotSame bit {bit}")?.into_bytes(),
        Cause::NoChannel { name } => channel_text(alloc, "NoChannel", name)?.into_bytes(),
        Cause::NotInjective { first, second } => clash_text(alloc, first, second)?.into_bytes(),
        Cause::Capture { name } => channel_text(alloc, "Capture", name)?.into_bytes(),
        Cause::NoPort { name } => channel_text(alloc, "NoPort", name)?.into_bytes(),
    })
}
