//! What is told where the scripts of a theorem give no chain.

ghost use Rattle.std.specs.Prelude.{◌≡◌, ◌-◌, IfOk, Option, Some, map, option_copied, option_map, slice_get, string_bytes};
ghost use Rattle.ipdl_script.specs.Answers.{TellsWrong};
ghost use Rattle.ipdl_script.specs.Scripts.{Wrong as Found, wrong_step};
ghost use Rattle.ipdl_script.specs.Views.{side_of, refusal_of};
ghost use Rattle.ipdl_term.specs.Steps.{step_of};
ghost use Rattle.ipdl_top.specs.Scripts.{rule_text, rule_text_at, steps_on, wrong_refusal};
ghost use Rattle.ipdl_top.specs.Told.{IsStop};

use crate::causes::step_cause_text;
use crate::refusal::{Refusal, Stop, ends_differ, over_at_step};
use ipdl_base::NoMemory;
use ipdl_forms::TheoremItem;
use ipdl_script::{Cause, ScriptFault, Side, Wrong};
use ipdl_sig::Sig;
use ipdl_term::{Step, rule_word};
use std::alloc::Global;

// How the rule of a step is told.
fn rule_text(alloc: Global, step: &Step) -> Result<String, NoMemory>
    ensures { IfOk result (λ text. string_bytes text ≡ rule_text (step_of step.now)) }
{
    let mut text = String::new(alloc);
    match step {
        Step::Plain { rule, .. } => text.push_str(rule_word(rule))?,
        Step::Rev { rule, .. } => {
            text.push_str("rev ")?;
            text.push_str(rule_word(rule))?;
        }
        Step::Invoke { name, .. } => {
            text.push_str("use ")?;
            text.push_str(name.text())?;
        }
    }
    Ok(text)
}

// That of the step of a number, the first one having the number 1.
fn rule_text_at(alloc: Global, steps: &[Step], number: u32) -> Result<String, NoMemory>
    ensures { IfOk result (λ text. string_bytes text ≡ rule_text_at (map step_of steps.now) number) }
{
    match steps.get((number as usize).saturating_sub(1)) {
        Some(step) => rule_text(alloc, step),
        None => Ok(String::new(alloc)),
    }
}

fn steps_on(theorem: &TheoremItem, side: Side) -> &[Step]
    ensures { map step_of result.now ≡ steps_on (map step_of theorem.now.left_steps) (map step_of theorem.now.right_steps) (side_of side) }
{
    match side {
        Side::Left => theorem.left_steps.as_slice(),
        Side::Right => theorem.right_steps.as_slice(),
    }
}

// The step is wrong.
fn wrong_step(
    alloc: Global,
    sig: &Sig,
    theorem: &TheoremItem,
    side: Side,
    number: u32,
    cause: &Cause,
) -> Stop
    ensures { IsStop result (Some (wrong_refusal sig.now theorem.now.name (map step_of theorem.now.left_steps) (map step_of theorem.now.right_steps) (wrong_step (side_of side) number (refusal_of cause.now)))) }
{
    let Ok(rule) = rule_text_at(alloc, steps_on(theorem, side), number) else {
        return Stop::Memory;
    };
    let Ok(cause) = step_cause_text(alloc, sig, cause) else {
        return Stop::Memory;
    };
    match theorem.name.copy(alloc) {
        Ok(name) => Stop::Refused(Refusal::WrongStep(name, side, number, rule, cause)),
        Err(NoMemory) => Stop::Memory,
    }
}

// Where a call stops at a fault of the scripts of a theorem.
pub(crate) fn script_stop(
    alloc: Global,
    sig: &Sig,
    theorem: &TheoremItem,
    fault: ScriptFault,
) -> Stop
    ensures { (wrong : Option Found) → TellsWrong fault wrong → IsStop result (option_map (wrong_refusal sig.now theorem.now.name (map step_of theorem.now.left_steps) (map step_of theorem.now.right_steps)) wrong) }
{
    match fault {
        ScriptFault::Wrong(Wrong::At { side, step, cause }) => {
            wrong_step(alloc, sig, theorem, side, step, &cause)
        }
        ScriptFault::Wrong(Wrong::Ends { path }) => ends_differ(alloc, &theorem.name, path),
        ScriptFault::Over { limit, side, step } => {
            over_at_step(alloc, limit, &theorem.name, side, step)
        }
        ScriptFault::Memory => Stop::Memory,
    }
}
