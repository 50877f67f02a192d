//! The lines that say where and why something is refused.

ghost use Rattle.std.specs.Prelude.{◌≡◌, ◌++◌, IfOk, OnOk, string_bytes, [], ◌∷◌};
ghost use Rattle.ipdl_typing.specs.Answers.{failure_of};
ghost use Rattle.ipdl_top.specs.Lines.{spell_cause_name, form_cause_name, limit_name, side_name, spell_line, form_line, limit_line, ill_line, wrong_step_line, ends_line};
ghost use Rattle.ipdl_top.specs.Told.{where_words, told};
ghost use Rattle.ipdl_printing.specs.Texts.{spaced};
ghost use Rattle.ipdl_script.specs.Views.{side_of};

use crate::causes::push_ill;
use crate::refusal::{Refusal, Where};
use ipdl_base::{Limit, Name, NoMemory, Pos};
use ipdl_forms::FormCause;
use ipdl_printing::push_place;
use ipdl_script::Side;
use ipdl_tree::SpellCause;
use ipdl_typing::Ill;
use std::alloc::Global;

// ---- the words of causes

fn spell_cause_name(cause: SpellCause) -> &'static str
    ensures { result.now ≡ spell_cause_name cause }
{
    match cause {
        SpellCause::BadByte => "BadByte",
        SpellCause::BadName => "BadName",
        SpellCause::Unclosed => "Unclosed",
        SpellCause::Extra => "Extra",
        SpellCause::NoText => "NoText",
    }
}

fn form_cause_name(cause: FormCause) -> &'static str
    ensures { result.now ≡ form_cause_name cause }
{
    match cause {
        FormCause::NotAForm => "NotAForm",
        FormCause::UnknownName => "UnknownName",
        FormCause::Repeated => "Repeated",
        FormCause::WrongWidth => "WrongWidth",
        FormCause::TableLength => "TableLength",
    }
}

fn limit_name(limit: Limit) -> &'static str
    ensures { result.now ≡ limit_name limit }
{
    match limit {
        Limit::Source => "Source",
        Limit::Depth => "Depth",
        Limit::Items => "Items",
        Limit::Channels => "Channels",
        Limit::Nodes => "Nodes",
        Limit::Steps => "Steps",
        Limit::Chain => "Chain",
        Limit::Output => "Output",
        Limit::Coins => "Coins",
    }
}

fn side_name(side: Side) -> &'static str
    ensures { result.now ≡ side_name (side_of side) }
{
    match side {
        Side::Left => "left",
        Side::Right => "right",
    }
}

fn push_where(text: &mut String, at: &Where) -> Result<(), NoMemory>
    ensures { OnOk result (string_bytes text.new ≡ string_bytes text.old ++ spaced (where_words at.now)) }
{
    match at {
        Where::Byte(pos) => write!(text, "byte {}", pos.0)?,
        Where::Item(item) => write!(text, "item {}", item.text())?,
        Where::Theorem(theorem) => write!(text, "theorem {}", theorem.text())?,
        Where::Step(theorem, side, number) => {
            write!(
                text,
                "theorem {} {} {number}",
                theorem.text(),
                side_name(*side)
            )?
        }
    }
    Ok(())
}

// ---- lines

fn spell_text(alloc: Global, pos: Pos, cause: SpellCause) -> Result<String, NoMemory>
    ensures { IfOk result (λ text. string_bytes text ≡ spell_line pos.0 (spell_cause_name cause)) }
{
    let mut text = String::new(alloc);
    let offset = pos.0;
    let cause = spell_cause_name(cause);
    writeln!(text, "spell {offset} {cause}")?;
    Ok(text)
}

fn form_text(alloc: Global, pos: Pos, cause: &str) -> Result<String, NoMemory>
    ensures { IfOk result (λ text. string_bytes text ≡ form_line pos.0 cause.now) }
{
    let mut text = String::new(alloc);
    let offset = pos.0;
    writeln!(text, "form {offset} {cause}")?;
    Ok(text)
}

fn limit_text(alloc: Global, limit: Limit, number: u64, at: &Where) -> Result<String, NoMemory>
    ensures { IfOk result (λ text. string_bytes text ≡ limit_line limit number (where_words at.now)) }
{
    let mut text = String::new(alloc);
    let name = limit_name(limit);
    write!(text, "limit {name} {number} at ")?;
    push_where(&mut text, at)?;
    text.push_str("\n")?;
    Ok(text)
}

fn ill_text(alloc: Global, item: &Name, ill: &Ill) -> Result<String, NoMemory>
    ensures { IfOk result (λ text. string_bytes text ≡ ill_line item.now (failure_of ill.now)) }
{
    let mut text = String::new(alloc);
    write!(text, "ill {} ", item.text())?;
    push_ill(&mut text, ill)?;
    text.push_str("\n")?;
    Ok(text)
}

fn wrong_step_text(
    alloc: Global,
    theorem: &Name,
    side: Side,
    number: u32,
    rule: &str,
    cause: &[u8],
) -> Result<Vec<u8>, NoMemory>
    ensures { IfOk result (λ text. text.items ≡ wrong_step_line theorem.now (side_of side) number rule.now cause.now) }
{
    let mut text = String::new(alloc);
    let theorem = theorem.text();
    let side = side_name(side);
    write!(text, "wrong {theorem} {side} {number} {rule} ")?;
    let mut text = text.into_bytes();
    text.extend_from_slice(cause)?;
    text.push(b'\n')?;
    Ok(text)
}

fn ends_text(alloc: Global, theorem: &Name, place: &[u32]) -> Result<String, NoMemory>
    ensures { IfOk result (λ text. string_bytes text ≡ ends_line theorem.now place.now) }
{
    let mut text = String::new(alloc);
    write!(text, "wrong {} ends ", theorem.text())?;
    push_place(&mut text, place)?;
    text.push_str("\n")?;
    Ok(text)
}

// The line of a refusal.
pub(crate) fn refusal_text(alloc: Global, refusal: &Refusal) -> Result<Vec<u8>, NoMemory>
    ensures { IfOk result (λ text. text.items ≡ (told refusal.now).text) }
{
    Ok(match refusal {
        Refusal::Spell(pos, cause) => spell_text(alloc, *pos, *cause)?.into_bytes(),
        Refusal::Form(pos, cause) => form_text(alloc, *pos, form_cause_name(*cause))?.into_bytes(),
        Refusal::Limit(limit, number, at) => limit_text(alloc, *limit, *number, at)?.into_bytes(),
        Refusal::Ill(item, ill) => ill_text(alloc, item, ill)?.into_bytes(),
        Refusal::WrongStep(theorem, side, number, rule, cause) => {
            wrong_step_text(
                alloc,
                theorem,
                *side,
                *number,
                rule.as_str(),
                cause.as_slice(),
            )?
        }
        Refusal::Ends(theorem, place) => ends_text(alloc, theorem, place.parts())?.into_bytes(),
        Refusal::Item(line) => line.clone()?,
    })
}
