//! The truth that a step asks for: that the expression at its place and the new one are equal there,
//! or have the same linear forms.

ghost use Rattle.std.specs.Prelude.{◌≡◌, ◌≤◌, ℕ, Err, IfOk, None, Option, length, map, option_map, reverse, take};
ghost use Rattle.ipdl_rules_r.specs.Expressions.{pair_at, question_at};
ghost use Rattle.ipdl_rules_r.specs.TruthTests.{TellsTruth, TruthRefusal, form_refusal, truth_refusal};
ghost use Rattle.ipdl_script.specs.Answers.{TellsRefusal};
ghost use Rattle.ipdl_script.specs.Fitting.{WholeFits};
ghost use Rattle.ipdl_script.specs.Steps.{after_step, untrue};
ghost use Rattle.ipdl_script.specs.TestGroups.{AnswersTest, part_refusal, truth_there};
ghost use Rattle.ipdl_script.specs.Views.{setting_of};
ghost use Rattle.ipdl_term.specs.Rules as R;
ghost use Rattle.ipdl_term.specs.Sizes.{most_nodes};
ghost use Rattle.ipdl_term.specs.Steps.{plain, rule_of, step_of};
ghost use Rattle.ipdl_term.specs.Surroundings.{AreTests, condition_of};
ghost use Rattle.ipdl_term.specs.Typing.{HasInterface, HasWidth};
ghost use Rattle.ipdl_term.specs.Variables.{settled_expression, unsettled_in_expression};
ghost use Rattle.ipdl_term.specs.Views.{expression_of, protocol_of};
ghost use Rattle.ipdl_typing.specs.Signatures.{signature_of};

use crate::fault::{Cause, StepFault};
use crate::setting::Setting;
use crate::tables::surroundings;
use crate::variables::settled_argument;
use ipdl_base::Path;
use ipdl_cursor::{Found, PartRef};
use ipdl_rules_r::{ExprFault, apply_expr};
use ipdl_sig::Sig;
use ipdl_term::{Expr, Proto, Rule, Step, boxed};
use std::alloc::Global;

// Why a step is refused whose two expressions are not shown to be equal.
fn truth_fault(fault: ExprFault) -> StepFault
    ensures { (refusal : Option TruthRefusal) → TellsTruth (Err fault) refusal →
        TellsRefusal result (option_map untrue refusal) }
{
    match fault {
        ExprFault::NoMatch => StepFault::Refused(Cause::NoMatch),
        ExprFault::Abstract { symbol } => StepFault::Refused(Cause::Abstract { symbol }),
        ExprFault::Large { bits } => StepFault::Refused(Cause::Large { bits }),
        ExprFault::TooWide { bits } => StepFault::Refused(Cause::TooWide { bits }),
        ExprFault::NotSame { valuation } => StepFault::Refused(Cause::NotSame { valuation }),
        ExprFault::NotForm { bit } => StepFault::Refused(Cause::NotForm { bit }),
        ExprFault::Memory => StepFault::Memory,
    }
}

// `table` with its argument settled.
fn settled_table(alloc: Global, depth: u32, k: u32, e: &Expr) -> Result<Box<Rule>, StepFault>
    requires { unsettled_in_expression depth (expression_of e.now) ≡ None }
    ensures test { AnswersTest result None }
    ensures value { IfOk result (λ rule.
        rule_of rule.value ≡ R.table k (settled_expression depth (expression_of e.now))) }
{
    let settled = settled_argument(alloc, depth, e)?;
    Ok(boxed(alloc, Ok(Rule::Table(k, settled)))?)
}

// `lin` with its argument settled.
fn settled_lin(alloc: Global, depth: u32, e: &Expr) -> Result<Box<Rule>, StepFault>
    requires { unsettled_in_expression depth (expression_of e.now) ≡ None }
    ensures test { AnswersTest result None }
    ensures value { IfOk result (λ rule.
        rule_of rule.value ≡ R.lin (settled_expression depth (expression_of e.now))) }
{
    let settled = settled_argument(alloc, depth, e)?;
    Ok(boxed(alloc, Ok(Rule::Lin(settled)))?)
}

// Checks that the two expressions are equal where the innermost conditions are met, as many as the
// rule says.
fn check_same(
    alloc: Global,
    sig: &Sig,
    found: &Found<'_>,
    k: u32,
    e: &Expr,
    old: &Expr,
) -> Result<(), StepFault>
    requires few { length found.now.widths ≤ most_nodes }
    requires bound { unsettled_in_expression (length found.now.widths) (expression_of e.now) ≡ None }
    requires old { (w : ℕ) × HasWidth (signature_of sig.now) (reverse found.now.widths) (expression_of old.now) w }
    requires new { (w : ℕ) × HasWidth (signature_of sig.now) (reverse found.now.widths)
        (settled_expression (length found.now.widths) (expression_of e.now)) w }
    requires there { k ≤ length (map condition_of found.now.conditions) }
    requires tests { AreTests (signature_of sig.now) (reverse found.now.widths)
        (take k (map condition_of found.now.conditions)) }
    ensures { AnswersTest result (option_map untrue (truth_refusal (question_at (signature_of sig.now)
        (reverse found.now.widths) (map condition_of found.now.conditions) k (expression_of old.now)
        (settled_expression (length found.now.widths) (expression_of e.now))))) }
{
    let widths = found.widths.as_slice();
    let rule = settled_table(alloc, widths.len() as u32, k, e)?;
    match apply_expr(alloc, sig, widths, found.conditions.as_slice(), &rule, old) {
        Ok(()) => Ok(()),
        Err(fault) => Err(truth_fault(fault)),
    }
}

// Checks that the two expressions have the same linear forms.
fn check_alike(
    alloc: Global,
    sig: &Sig,
    found: &Found<'_>,
    e: &Expr,
    old: &Expr,
) -> Result<(), StepFault>
    requires few { length found.now.widths ≤ most_nodes }
    requires bound { unsettled_in_expression (length found.now.widths) (expression_of e.now) ≡ None }
    requires old { (w : ℕ) × HasWidth (signature_of sig.now) (reverse found.now.widths) (expression_of old.now) w }
    requires new { (w : ℕ) × HasWidth (signature_of sig.now) (reverse found.now.widths)
        (settled_expression (length found.now.widths) (expression_of e.now)) w }
    ensures { AnswersTest result (option_map untrue (form_refusal (pair_at (signature_of sig.now)
        (reverse found.now.widths) (expression_of old.now)
        (settled_expression (length found.now.widths) (expression_of e.now))))) }
{
    let widths = found.widths.as_slice();
    let rule = settled_lin(alloc, widths.len() as u32, e)?;
    match apply_expr(alloc, sig, widths, found.conditions.as_slice(), &rule, old) {
        Ok(()) => Ok(()),
        Err(fault) => Err(truth_fault(fault)),
    }
}

// Checks the truth that `table` asks for.
fn check_table(
    alloc: Global,
    setting: &Setting<'_>,
    before: &Proto,
    path: &Path,
    k: u32,
    e: &Expr,
) -> Result<(), StepFault>
    requires whole { WholeFits (setting_of setting.now) (protocol_of before.now) }
    requires passed { part_refusal (setting_of setting.now) (protocol_of before.now)
        (plain path.now (R.table k (expression_of e.now))) ≡ None }
    requires typed { HasInterface (signature_of setting.now.sig.now) setting.now.interface.now
        (after_step (setting_of setting.now) (protocol_of before.now)
        (plain path.now (R.table k (expression_of e.now)))) }
    ensures { AnswersTest result (truth_there (setting_of setting.now) (protocol_of before.now)
        (plain path.now (R.table k (expression_of e.now)))) }
{
    let found = surroundings(alloc, setting, before, path)?;
    match found.part {
        PartRef::E(old) => check_same(alloc, setting.sig, &found, k, e, old),
        PartRef::P(_) | PartRef::R(_) => Ok(()),
    }
}

// Checks the linear forms that `lin` compares.
fn check_lin(
    alloc: Global,
    setting: &Setting<'_>,
    before: &Proto,
    path: &Path,
    e: &Expr,
) -> Result<(), StepFault>
    requires whole { WholeFits (setting_of setting.now) (protocol_of before.now) }
    requires passed { part_refusal (setting_of setting.now) (protocol_of before.now)
        (plain path.now (R.lin (expression_of e.now))) ≡ None }
    requires typed { HasInterface (signature_of setting.now.sig.now) setting.now.interface.now
        (after_step (setting_of setting.now) (protocol_of before.now)
        (plain path.now (R.lin (expression_of e.now)))) }
    ensures { AnswersTest result (truth_there (setting_of setting.now) (protocol_of before.now)
        (plain path.now (R.lin (expression_of e.now)))) }
{
    let found = surroundings(alloc, setting, before, path)?;
    match found.part {
        PartRef::E(old) => check_alike(alloc, setting.sig, &found, e, old),
        PartRef::P(_) | PartRef::R(_) => Ok(()),
    }
}

// Checks the truth that the rule of the step asks for, where all other tests pass.
pub(crate) fn check_truth(
    alloc: Global,
    setting: &Setting<'_>,
    before: &Proto,
    step: &Step,
) -> Result<(), StepFault>
    requires whole { WholeFits (setting_of setting.now) (protocol_of before.now) }
    requires passed { part_refusal (setting_of setting.now) (protocol_of before.now) (step_of step.now) ≡ None }
    requires typed { HasInterface (signature_of setting.now.sig.now) setting.now.interface.now
        (after_step (setting_of setting.now) (protocol_of before.now) (step_of step.now)) }
    ensures { AnswersTest result
        (truth_there (setting_of setting.now) (protocol_of before.now) (step_of step.now)) }
{
    match step {
        Step::Plain {
            path,
            rule: Rule::Table(k, e),
        } => check_table(alloc, setting, before, path, *k, e),
        Step::Plain {
            path,
            rule: Rule::Lin(e),
        } => check_lin(alloc, setting, before, path, e),
        _ => Ok(()),
    }
}
