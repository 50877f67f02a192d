//! The new part that a step by a rule puts at its place.

ghost use Rattle.std.specs.Prelude.{◌≡◌, ◌≤◌, [], ℕ, None, Some, IfOk, OnOk};
ghost use Rattle.ipdl_cursor.specs.Views.{part_of};
ghost use Rattle.ipdl_rules_p.specs.Room as ProtoRoom;
ghost use Rattle.ipdl_rules_r.specs.Room.{HasRoom};
ghost use Rattle.ipdl_script.specs.Fitting.{WholeFits, StepFits};
ghost use Rattle.ipdl_script.specs.Instances.{answer_at, gives, protocol_answer, reaction_answer};
ghost use Rattle.ipdl_script.specs.Settling.{settled_rule, unsettled_in_arguments};
ghost use Rattle.ipdl_script.specs.Steps.{around_place};
ghost use Rattle.ipdl_script.specs.TestGroups.{AnswersTest, HasRoomFor, IsChanged, answer_refusal, change_refusal, part_refusal, written_answer};
ghost use Rattle.ipdl_script.specs.Trails.{IsByRule};
ghost use Rattle.ipdl_script.specs.Views.{setting_of};
ghost use Rattle.ipdl_term.specs.Rules.{rule_arguments};
ghost use Rattle.ipdl_term.specs.Sizes.{most_nodes};
ghost use Rattle.ipdl_term.specs.Steps.{plain, rev, rule_of, step_of};
ghost use Rattle.ipdl_term.specs.Surroundings.{Surroundings};
ghost use Rattle.ipdl_term.specs.Terms.{protocol_term, reaction_term};
ghost use Rattle.ipdl_term.specs.Views.{protocol_of, reaction_of, term_of};
ghost use Rattle.ipdl_typing.specs.Signatures.{signature_of};

use crate::fault::{Cause, StepFault};
use crate::setting::Setting;
use crate::sides::{protocol_side, reaction_side};
use crate::spot::{Spot, find};
use crate::tables::expression_side;
use crate::variables::{check_arguments, settled};
use ipdl_base::Path;
use ipdl_cursor::PartRef;
use ipdl_sig::Sig;
use ipdl_term::{Part, Proto, React, Rule, Step, boxed};
use std::alloc::Global;

// ---- from the left side to the right side

// The right side of the settled rule for the protocol, as a part.
fn protocol_part(alloc: Global, rule: &Rule, term: &Proto) -> Result<Box<Part>, StepFault>
    requires { ProtoRoom.HasRoom (rule_of rule.now) (protocol_of term.now) }
    ensures test { (depth : ℕ) → AnswersTest result
        (answer_refusal (protocol_answer (settled_rule depth (rule_of rule.now)) (protocol_of term.now))) }
    ensures value { (depth : ℕ) → IfOk result (λ right.
        protocol_answer (settled_rule depth (rule_of rule.now)) (protocol_of term.now) ≡ gives (term_of right.value)) }
{
    let right = protocol_side(alloc, rule, term)?;
    Ok(boxed(alloc, Ok(Part::P(right)))?)
}

// The right side of the settled rule for the reaction, as a part.
fn reaction_part(
    alloc: Global,
    sig: &Sig,
    depth: u32,
    rule: &Rule,
    term: &React,
) -> Result<Box<Part>, StepFault>
    requires depth { depth ≤ most_nodes }
    requires bound { unsettled_in_arguments depth (rule_arguments (rule_of rule.now)) ≡ None }
    requires room { HasRoom (settled_rule depth (rule_of rule.now)) (reaction_of term.now) }
    ensures test { AnswersTest result (answer_refusal (reaction_answer (signature_of sig.now)
        (settled_rule depth (rule_of rule.now)) (reaction_of term.now))) }
    ensures value { IfOk result (λ right. reaction_answer (signature_of sig.now)
        (settled_rule depth (rule_of rule.now)) (reaction_of term.now) ≡ gives (term_of right.value)) }
{
    let right = reaction_side(alloc, sig, depth, rule, term)?;
    Ok(boxed(alloc, Ok(Part::R(right)))?)
}

// The right side of the settled rule for the part at the place, around which so many binders are.
fn right_side(
    alloc: Global,
    setting: &Setting<'_>,
    before: &Proto,
    path: &Path,
    rule: &Rule,
    spot: Spot,
) -> Result<Box<Part>, StepFault>
    requires whole { WholeFits (setting_of setting.now) (protocol_of before.now) }
    requires room { HasRoomFor spot.depth (rule_of rule.now) (part_of spot.part) }
    requires few { spot.depth ≤ most_nodes }
    requires bound { unsettled_in_arguments spot.depth (rule_arguments (rule_of rule.now)) ≡ None }
    ensures test { AnswersTest result (answer_refusal (answer_at (setting_of setting.now).sig
        (around_place (setting_of setting.now) (protocol_of before.now) path.now)
        (settled_rule spot.entry.depth (rule_of rule.now)) (part_of spot.entry.part))) }
    ensures value { IfOk result (λ right. answer_at (setting_of setting.now).sig
        (around_place (setting_of setting.now) (protocol_of before.now) path.now)
        (settled_rule spot.entry.depth (rule_of rule.now)) (part_of spot.entry.part) ≡ gives (term_of right.value)) }
{
    match spot.part {
        PartRef::P(term) => protocol_part(alloc, rule, term),
        PartRef::R(term) => reaction_part(alloc, setting.sig, spot.depth, rule, term),
        PartRef::E(_) => expression_side(alloc, setting, before, path, spot.depth, rule),
    }
}

// The new part of a step from the left side of its rule to the right side.
fn plain_part(
    alloc: Global,
    setting: &Setting<'_>,
    before: &Proto,
    path: &Path,
    rule: &Rule,
) -> Result<Box<Part>, StepFault>
    requires whole { WholeFits (setting_of setting.now) (protocol_of before.now) }
    requires fits { StepFits (plain path.now (rule_of rule.now)) }
    ensures test { AnswersTest result
        (part_refusal (setting_of setting.now) (protocol_of before.now) (plain path.now (rule_of rule.now))) }
    ensures changed { IfOk result (λ new.
        IsChanged (setting_of setting.now) (protocol_of before.now) (plain path.now (rule_of rule.now)) (term_of new.value)) }
{
    let spot = find(setting, before, path)?;
    check_arguments(spot.depth, rule)?;
    right_side(alloc, setting, before, path, rule, spot)
}

// ---- from the right side to the left side

// Checks that the settled rule makes the part of the protocol that is written out.
fn check_protocol(
    alloc: Global,
    rule: &Rule,
    written: &Proto,
    part: &Proto,
) -> Result<(), StepFault>
    requires { ProtoRoom.HasRoom (rule_of rule.now) (protocol_of written.now) }
    ensures test { (depth : ℕ) → AnswersTest result (change_refusal
        (rev [] (settled_rule depth (rule_of rule.now)) (protocol_term (protocol_of written.now)))
        (Some (protocol_term (protocol_of part.now)))
        (protocol_answer (settled_rule depth (rule_of rule.now)) (protocol_of written.now))) }
    ensures value { (depth : ℕ) → OnOk result
        (protocol_answer (settled_rule depth (rule_of rule.now)) (protocol_of written.now)
        ≡ gives (protocol_term (protocol_of part.now))) }
{
    let right = protocol_side(alloc, rule, written)?;
    if right == *part {
        Ok(())
    } else {
        Err(StepFault::Refused(Cause::NotResult))
    }
}

// Checks that the settled rule makes the part of the reaction that is written out.
fn check_reaction(
    alloc: Global,
    sig: &Sig,
    depth: u32,
    rule: &Rule,
    written: &React,
    part: &React,
) -> Result<(), StepFault>
    requires depth { depth ≤ most_nodes }
    requires bound { unsettled_in_arguments depth (rule_arguments (rule_of rule.now)) ≡ None }
    requires room { HasRoom (settled_rule depth (rule_of rule.now)) (reaction_of written.now) }
    ensures test { AnswersTest result (change_refusal
        (rev [] (settled_rule depth (rule_of rule.now)) (reaction_term (reaction_of written.now)))
        (Some (reaction_term (reaction_of part.now)))
        (reaction_answer (signature_of sig.now) (settled_rule depth (rule_of rule.now)) (reaction_of written.now))) }
    ensures value { OnOk result
        (reaction_answer (signature_of sig.now) (settled_rule depth (rule_of rule.now)) (reaction_of written.now)
        ≡ gives (reaction_term (reaction_of part.now))) }
{
    let made = reaction_side(alloc, sig, depth, rule, written)?;
    if made == *part {
        Ok(())
    } else {
        Err(StepFault::Refused(Cause::NotResult))
    }
}

// Checks that the settled rule makes the part at the place of the term that is written out.
fn check_written(
    alloc: Global,
    sig: &Sig,
    rule: &Rule,
    written: &Part,
    spot: Spot,
) -> Result<(), StepFault>
    requires few { spot.depth ≤ most_nodes }
    requires bound { unsettled_in_arguments spot.depth (rule_arguments (rule_of rule.now)) ≡ None }
    requires room { HasRoomFor spot.depth (rule_of rule.now) (term_of written.now) }
    ensures test { (there : Surroundings) → AnswersTest result
        (change_refusal (rev [] (settled_rule spot.entry.depth (rule_of rule.now)) (term_of written.now))
        (Some (part_of spot.entry.part))
        (written_answer (signature_of sig.now) there (settled_rule spot.entry.depth (rule_of rule.now))
        (term_of written.now) (part_of spot.entry.part))) }
    ensures value { (there : Surroundings) → OnOk result
        (written_answer (signature_of sig.now) there (settled_rule spot.entry.depth (rule_of rule.now))
        (term_of written.now) (part_of spot.entry.part) ≡ gives (part_of spot.entry.part)) }
{
    match (written, spot.part) {
        (Part::P(left), PartRef::P(right)) => check_protocol(alloc, rule, left, right),
        (Part::R(left), PartRef::R(right)) => {
            check_reaction(alloc, sig, spot.depth, rule, left, right)
        }
        _ => Err(StepFault::Refused(Cause::NoMatch)),
    }
}

// The new part of a step from the right side of its rule to the left side, which is written out.
fn rev_part(
    alloc: Global,
    setting: &Setting<'_>,
    before: &Proto,
    path: &Path,
    rule: &Rule,
    term: &Part,
) -> Result<Box<Part>, StepFault>
    requires whole { WholeFits (setting_of setting.now) (protocol_of before.now) }
    requires fits { StepFits (rev path.now (rule_of rule.now) (term_of term.now)) }
    ensures test { AnswersTest result
        (part_refusal (setting_of setting.now) (protocol_of before.now) (rev path.now (rule_of rule.now) (term_of term.now))) }
    ensures changed { IfOk result (λ new.
        IsChanged (setting_of setting.now) (protocol_of before.now) (rev path.now (rule_of rule.now) (term_of term.now)) (term_of new.value)) }
{
    let spot = find(setting, before, path)?;
    check_arguments(spot.depth, rule)?;
    let written = settled(alloc, spot.depth, term)?;
    check_written(alloc, setting.sig, rule, &written, spot)?;
    Ok(written)
}

// ---- a step

// The new part of the step, if it is not refused before the new whole term is made.
pub(crate) fn new_part(
    alloc: Global,
    setting: &Setting<'_>,
    before: &Proto,
    step: &Step,
) -> Result<Box<Part>, StepFault>
    requires whole { WholeFits (setting_of setting.now) (protocol_of before.now) }
    requires fits { StepFits (step_of step.now) }
    requires by { IsByRule (step_of step.now) }
    ensures test { AnswersTest result
        (part_refusal (setting_of setting.now) (protocol_of before.now) (step_of step.now)) }
    ensures changed { IfOk result (λ new.
        IsChanged (setting_of setting.now) (protocol_of before.now) (step_of step.now) (term_of new.value)) }
{
    match step {
        Step::Plain { path, rule } => plain_part(alloc, setting, before, path, rule),
        Step::Rev { path, rule, term } => rev_part(alloc, setting, before, path, rule, term),
        Step::Invoke { .. } => unreachable!(),
    }
}
