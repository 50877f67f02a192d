//! One step: the further whole terms to which it leads, each with its mark.

ghost use Rattle.std.specs.Prelude.{IfOk};
ghost use Rattle.ipdl_script.specs.Adding.{IsAdded, IsKeptSetting};
ghost use Rattle.ipdl_script.specs.Fitting.{StepFits, WholeFits};
ghost use Rattle.ipdl_script.specs.Steps.{step_refusal};
ghost use Rattle.ipdl_script.specs.TestGroups.{AnswersTest};
ghost use Rattle.ipdl_script.specs.Views.{setting_of};
ghost use Rattle.ipdl_term.specs.Steps.{step_of};
ghost use Rattle.ipdl_term.specs.Views.{protocol_of};

use crate::fault::StepFault;
use crate::setting::Setting;
use crate::stepping::added_by_rule;
use crate::using::added_by_use;
use ipdl_base::List;
use ipdl_chain::Mark;
use ipdl_term::{Proto, Step};
use std::alloc::Global;

/// The whole terms that a step adds, in order, and the mark of each.
#[derive(Drop)]
pub struct AddedTerms {
    pub terms: List<Proto>,
    pub marks: List<Mark>,
}

/// The whole terms to which the step leads from the one before it: one by a rule, one by a theorem
/// without assumptions, and else as many as the chain that is used has neighbours. Its tests are made
/// in this order, and the first that fails is told. Of a rule: the place, the outer variables, the
/// shape of the rule's left side, its side conditions, the size of its right side, for `rev` the part
/// at the place, the nodes, the channels and the depth of the new whole term, its type, and the truth
/// that the rule asks for. Of a use: the place, the pairs and what is used, the nodes, the channels
/// and the depth of each whole term that is added, and the type of the last one.
pub fn added_by_step(
    alloc: Global,
    setting: &Setting<'_>,
    before: &Proto,
    step: &Step,
) -> Result<AddedTerms, StepFault>
    requires whole { WholeFits (setting_of setting.now) (protocol_of before.now) }
    requires term { StepFits (step_of step.now) }
    requires kept { IsKeptSetting setting.now }
    ensures test { AnswersTest result
        (step_refusal (setting_of setting.now) (protocol_of before.now) (step_of step.now)) }
    ensures added { IfOk result (λ added. IsAdded (setting_of setting.now) (protocol_of before.now)
        (step_of step.now) added.terms added.marks) }
{
    match step {
        Step::Invoke {
            path,
            name,
            dir,
            pairs,
        } => added_by_use(alloc, setting, before, path, name, *dir, pairs.as_slice()),
        Step::Plain { .. } | Step::Rev { .. } => added_by_rule(alloc, setting, before, step),
    }
}
