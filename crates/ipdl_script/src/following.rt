//! The steps of one side, each from the whole term before it.

ghost use Rattle.std.specs.Prelude.{◌≡◌, ◌+◌, ◌≤◌, ◌∷◌, [], ◌++◌, All, IfOk, OnOk, Option, ℕ, length, map, option_map, suc};
ghost use Rattle.ipdl_base.specs.Limits.{limit_number};
ghost use Rattle.ipdl_chain.specs.Chains.{neighbour_count};
ghost use Rattle.ipdl_script.specs.Adding.{IsAdded, IsKeptSetting};
ghost use Rattle.ipdl_script.specs.Answers.{TellsRefusal, TellsWrong};
ghost use Rattle.ipdl_script.specs.Fitting.{StepFits, WholeFits};
ghost use Rattle.ipdl_script.specs.Scripts.{links_of_script, refusal_in_script, wrong_in_script, wrong_step};
ghost use Rattle.ipdl_script.specs.Steps.{Refusal};
ghost use Rattle.ipdl_script.specs.TestGroups.{AnswersScripts, AnswersTest};
ghost use Rattle.ipdl_script.specs.Trails.{IsTrail, trail_first, trail_links};
ghost use Rattle.ipdl_script.specs.Views.{setting_of, side_of};
ghost use Rattle.ipdl_term.specs.Steps.{step_of};
ghost use Rattle.ipdl_term.specs.Views.{protocol_of};

use crate::adding_step::{AddedTerms, added_by_step};
use crate::fault::{ScriptFault, Side, StepFault, Wrong};
use crate::setting::Setting;
use crate::trail::{Trail, extended, start};
use ipdl_base::Limit;
use ipdl_term::{Proto, Step};
use std::alloc::Global;

// What the step adds, where there are so many neighbours before it.
#[tactic(auto, using(crate::proofs::Scripts::next_terms))]
fn next_terms(
    alloc: Global,
    setting: &Setting<'_>,
    neighbours: u64,
    before: &Proto,
    step: &Step,
) -> Result<AddedTerms, StepFault>
    requires whole { WholeFits (setting_of setting.now) (protocol_of before.now) }
    requires term { StepFits (step_of step.now) }
    requires kept { IsKeptSetting setting.now }
    requires short { neighbours ≤ limit_number Limit.Chain }
    ensures test { AnswersTest result
        (refusal_in_script (setting_of setting.now) neighbours (protocol_of before.now) (step_of step.now)) }
    ensures added { IfOk result (λ added. IsAdded (setting_of setting.now) (protocol_of before.now)
        (step_of step.now) added.terms added.marks) }
    ensures short { IfOk result (λ added. neighbours + length added.marks ≤ limit_number Limit.Chain) }
{
    let added = added_by_step(alloc, setting, before, step)?;
    if added.marks.as_slice().len() as u64 > Limit::Chain.number() - neighbours {
        return Err(StepFault::Over(Limit::Chain));
    }
    Ok(added)
}

// Why the step of this number gives no term.
fn wrong_at(side: Side, step: u32, fault: StepFault) -> ScriptFault
    ensures { (refusal : Option Refusal) → TellsRefusal fault refusal →
        TellsWrong result (option_map (wrong_step (side_of side) step) refusal) }
{
    match fault {
        StepFault::Refused(cause) => ScriptFault::Wrong(Wrong::At { side, step, cause }),
        StepFault::Over(limit) => ScriptFault::Over { limit, side, step },
        StepFault::Memory => ScriptFault::Memory,
    }
}

// The trail of the steps of a side from its protocol, where there are so many neighbours before it.
pub(crate) fn followed(
    alloc: Global,
    setting: &Setting<'_>,
    neighbours: u64,
    side: Side,
    from: &Proto,
    steps: &[Step],
) -> Result<Trail, ScriptFault>
    requires whole { WholeFits (setting_of setting.now) (protocol_of from.now) }
    requires steps { All (λ step. StepFits (step_of step)) steps.now }
    requires kept { IsKeptSetting setting.now }
    requires short { neighbours ≤ limit_number Limit.Chain }
    ensures test { AnswersScripts result (wrong_in_script (setting_of setting.now) neighbours (side_of side) 1
        (protocol_of from.now) (map step_of steps.now)) }
    ensures first { IfOk result (λ trail. trail_first trail ≡ protocol_of from.now) }
    ensures links { IfOk result (λ trail. trail_links trail
        ≡ links_of_script (setting_of setting.now) (protocol_of from.now) (map step_of steps.now)) }
    ensures trail { IfOk result (λ trail. IsTrail (setting_of setting.now) trail) }
    ensures short { OnOk result (neighbours + neighbour_count (links_of_script (setting_of setting.now)
        (protocol_of from.now) (map step_of steps.now)) ≤ limit_number Limit.Chain) }
{
    let mut trail = start(alloc, from)?;
    let mut so_far = neighbours;
    let mut number = 1;
    for step in steps {
        match next_terms(alloc, setting, so_far, trail.end(), step) {
            Ok(added) => {
                so_far += added.marks.as_slice().len() as u64;
                number += 1;
                trail = extended(trail, added)?;
            }
            Err(fault) => return Err(wrong_at(side, number, fault)),
        }
    }
    Ok(trail)
}
