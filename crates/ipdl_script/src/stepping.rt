//! Steps by rules: from a whole term to the one that a rule makes of it.

ghost use Rattle.std.specs.Option.{option_or};
ghost use Rattle.std.specs.Prelude.{◌≡◌, [], ◌∷◌, None, true, IfOk, OnOk};
ghost use Rattle.ipdl_script.specs.Adding.{IsAdded};
ghost use Rattle.ipdl_script.specs.Answers.{StepsFrom};
ghost use Rattle.ipdl_script.specs.Fitting.{StepFits, WholeFits};
ghost use Rattle.ipdl_script.specs.Steps.{KeepsLimits, after_step, channels_test, depth_test, first_refusal, nodes_test, place_of, step_refusal, type_test};
ghost use Rattle.ipdl_script.specs.TestGroups.{AnswersTest, KeepsType, keeps_type, part_refusal, truth_there, whole_refusal};
ghost use Rattle.ipdl_script.specs.Trails.{IsByRule};
ghost use Rattle.ipdl_script.specs.Views.{setting_of};
ghost use Rattle.ipdl_term.specs.Steps.{rule_of, step_of};
ghost use Rattle.ipdl_term.specs.Typing.{HasInterface};
ghost use Rattle.ipdl_term.specs.Views.{protocol_of};
ghost use Rattle.ipdl_typing.specs.Signatures.{signature_of};

use crate::adding_step::AddedTerms;
use crate::fault::{Cause, StepFault};
use crate::limits::check_limit;
use crate::marks::mark_of_step;
use crate::new_part::new_part;
use crate::setting::Setting;
use crate::truth::check_truth;
use ipdl_base::{Limit, List, NoMemory, Path};
use ipdl_chain::Mark;
use ipdl_cursor::replaced;
use ipdl_term::{Proto, Rule, Step, measure};
use ipdl_typing::{TypeFault, check_proto};
use std::alloc::Global;

/// The greatest depth of a protocol in print, in parentheses.
pub const GREATEST_DEPTH: u64 = 190;

// ---- the new whole term

// Checks how many nodes and assignments there are, and how deep the parentheses nest in print.
pub(crate) fn check_extent(after: &Proto) -> Result<(), StepFault>
    ensures test { AnswersTest result (first_refusal (nodes_test (protocol_of after.now)
        ∷ channels_test (protocol_of after.now) ∷ depth_test (protocol_of after.now) ∷ [])) }
    ensures kept { OnOk result (KeepsLimits (protocol_of after.now)) }
{
    let extent = measure(after);
    check_limit(Limit::Nodes, Limit::Nodes.number(), extent.nodes)?;
    check_limit(Limit::Channels, Limit::Channels.number(), extent.channels)?;
    check_limit(Limit::Depth, GREATEST_DEPTH, extent.depth)
}

// Checks that the term has the theorem's interface.
pub(crate) fn check_type(
    alloc: Global,
    setting: &Setting<'_>,
    after: &Proto,
) -> Result<(), StepFault>
    ensures test { AnswersTest result (type_test (setting_of setting.now) (protocol_of after.now)) }
    ensures typed { OnOk result
        (HasInterface (signature_of setting.now.sig.now) setting.now.interface.now (protocol_of after.now)) }
{
    match check_proto(alloc, setting.sig, setting.interface, after) {
        Ok(()) => Ok(()),
        Err(TypeFault::Ill(ill)) => Err(StepFault::Refused(Cause::IllTyped(ill))),
        Err(TypeFault::Memory) => Err(StepFault::Memory),
    }
}

// Whether each right side of the rule has the type of its left side.
fn keeps_type(rule: &Rule) -> bool
    ensures { result ≡ keeps_type (rule_of rule.now) }
{
    matches!(
        rule,
        Rule::Comm
            | Rule::Assocl
            | Rule::Assocr
            | Rule::Unit
            | Rule::Newswap
            | Rule::Scope
            | Rule::Rename(_)
            | Rule::Absorb
            | Rule::Fold(_)
            | Rule::Subst(_)
            | Rule::Drop
            | Rule::Diverge
            | Rule::Shape
    )
}

// Whether the step keeps the type: from the left side of such a rule to the right one.
fn step_keeps_type(step: &Step) -> bool
    ensures { result ≡ true → KeepsType (step_of step.now) }
{
    match step {
        Step::Plain { rule, .. } => keeps_type(rule),
        Step::Rev { .. } | Step::Invoke { .. } => false,
    }
}

// Checks the type after the step, unless the step keeps it.
fn check_type_after(
    alloc: Global,
    setting: &Setting<'_>,
    step: &Step,
    after: &Proto,
) -> Result<(), StepFault>
    requires { KeepsType (step_of step.now) →
        HasInterface (signature_of setting.now.sig.now) setting.now.interface.now (protocol_of after.now) }
    ensures test { AnswersTest result (type_test (setting_of setting.now) (protocol_of after.now)) }
    ensures typed { OnOk result
        (HasInterface (signature_of setting.now.sig.now) setting.now.interface.now (protocol_of after.now)) }
{
    if step_keeps_type(step) {
        Ok(())
    } else {
        check_type(alloc, setting, after)
    }
}

// Checks both.
fn check_whole(
    alloc: Global,
    setting: &Setting<'_>,
    step: &Step,
    after: &Proto,
) -> Result<(), StepFault>
    requires { KeepsType (step_of step.now) →
        HasInterface (signature_of setting.now.sig.now) setting.now.interface.now (protocol_of after.now) }
    ensures test { AnswersTest result (whole_refusal (setting_of setting.now) (protocol_of after.now)) }
    ensures fits { OnOk result (WholeFits (setting_of setting.now) (protocol_of after.now)) }
{
    check_extent(after)?;
    check_type_after(alloc, setting, step, after)
}

// Checks both, and then the truth that the rule asks for.
fn check_after(
    alloc: Global,
    setting: &Setting<'_>,
    before: &Proto,
    step: &Step,
    after: &Proto,
) -> Result<(), StepFault>
    requires whole { WholeFits (setting_of setting.now) (protocol_of before.now) }
    requires by { IsByRule (step_of step.now) }
    requires passed { part_refusal (setting_of setting.now) (protocol_of before.now) (step_of step.now) ≡ None }
    requires after { after_step (setting_of setting.now) (protocol_of before.now) (step_of step.now)
        ≡ protocol_of after.now }
    ensures test { AnswersTest result (option_or (whole_refusal (setting_of setting.now) (protocol_of after.now))
        (truth_there (setting_of setting.now) (protocol_of before.now) (step_of step.now))) }
    ensures fits { OnOk result (WholeFits (setting_of setting.now) (protocol_of after.now)) }
{
    check_whole(alloc, setting, step, after)?;
    check_truth(alloc, setting, before, step)
}

// The term, if it passes them.
fn accepted(
    alloc: Global,
    setting: &Setting<'_>,
    before: &Proto,
    step: &Step,
    after: Proto,
) -> Result<Proto, StepFault>
    requires whole { WholeFits (setting_of setting.now) (protocol_of before.now) }
    requires by { IsByRule (step_of step.now) }
    requires passed { part_refusal (setting_of setting.now) (protocol_of before.now) (step_of step.now) ≡ None }
    requires after { after_step (setting_of setting.now) (protocol_of before.now) (step_of step.now)
        ≡ protocol_of after }
    ensures test { AnswersTest result (option_or (whole_refusal (setting_of setting.now) (protocol_of after))
        (truth_there (setting_of setting.now) (protocol_of before.now) (step_of step.now))) }
    ensures same { IfOk result (λ whole. protocol_of whole ≡ protocol_of after) }
    ensures fits { IfOk result (λ whole. WholeFits (setting_of setting.now) (protocol_of whole)) }
{
    match check_after(alloc, setting, before, step, &after) {
        Ok(()) => Ok(after),
        Err(fault) => Err(fault),
    }
}

// ---- a step

// The place of a step.
fn path_of(step: &Step) -> &Path
    ensures { result.now ≡ place_of (step_of step.now) }
{
    match step {
        Step::Plain { path, .. } | Step::Rev { path, .. } | Step::Invoke { path, .. } => path,
    }
}

// The whole term to which the step leads from the term before it.
fn stepped(
    alloc: Global,
    setting: &Setting<'_>,
    before: &Proto,
    step: &Step,
) -> Result<Proto, StepFault>
    requires whole { WholeFits (setting_of setting.now) (protocol_of before.now) }
    requires term { StepFits (step_of step.now) }
    requires by { IsByRule (step_of step.now) }
    ensures steps { StepsFrom result (setting_of setting.now) (protocol_of before.now) (step_of step.now) }
    ensures fits { IfOk result (λ after. WholeFits (setting_of setting.now) (protocol_of after)) }
{
    let part = new_part(alloc, setting, before, step)?;
    let after = replaced(alloc, before, path_of(step), part)?;
    accepted(alloc, setting, before, step, after)
}

// One further term.
fn one_added(alloc: Global, term: Proto, mark: Mark) -> Result<AddedTerms, NoMemory>
    ensures terms { IfOk result (λ added. added.terms ≡ term ∷ []) }
    ensures marks { IfOk result (λ added. added.marks ≡ mark ∷ []) }
{
    let mut terms = List::empty(alloc);
    terms.push(term)?;
    let mut marks = List::empty(alloc);
    marks.push(mark)?;
    Ok(AddedTerms { terms, marks })
}

// The whole term that a step by a rule adds, and its mark.
pub(crate) fn added_by_rule(
    alloc: Global,
    setting: &Setting<'_>,
    before: &Proto,
    step: &Step,
) -> Result<AddedTerms, StepFault>
    requires whole { WholeFits (setting_of setting.now) (protocol_of before.now) }
    requires term { StepFits (step_of step.now) }
    requires by { IsByRule (step_of step.now) }
    ensures test { AnswersTest result
        (step_refusal (setting_of setting.now) (protocol_of before.now) (step_of step.now)) }
    ensures added { IfOk result (λ added. IsAdded (setting_of setting.now) (protocol_of before.now)
        (step_of step.now) added.terms added.marks) }
{
    let after = stepped(alloc, setting, before, step)?;
    let mark = mark_of_step(alloc, step)?;
    Ok(one_added(alloc, after, mark)?)
}
