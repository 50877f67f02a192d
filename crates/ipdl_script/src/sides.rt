//! The right sides of rules at a protocol and at a reaction, normal forms among them.

ghost use Rattle.std.specs.Prelude.{◌≡◌, ◌≤◌, ◌+◌, ℕ, IfOk, None};
ghost use Rattle.ipdl_rules_p.specs.Matching as P;
ghost use Rattle.ipdl_rules_p.specs.Room as ProtoRoom;
ghost use Rattle.ipdl_rules_r.specs.Matching as Q;
ghost use Rattle.ipdl_rules_r.specs.Room.{HasRoom};
ghost use Rattle.ipdl_script.specs.Instances.{answer_of_protocols, answer_of_reactions, gives, protocol_answer, reaction_answer};
ghost use Rattle.ipdl_script.specs.Settling.{settled_rule, unsettled_in_arguments};
ghost use Rattle.ipdl_script.specs.TestGroups.{AnswersTest, answer_refusal};
ghost use Rattle.ipdl_term.specs.Rules as R;
ghost use Rattle.ipdl_term.specs.Rules.{rule_arguments};
ghost use Rattle.ipdl_term.specs.Sizes.{most_nodes};
ghost use Rattle.ipdl_term.specs.Steps.{rule_of};
ghost use Rattle.ipdl_term.specs.Terms.{protocol_term, reaction_term};
ghost use Rattle.ipdl_term.specs.Variables.{settled_expression, unsettled_in_expression};
ghost use Rattle.ipdl_term.specs.Views.{expression_of, protocol_of, reaction_of};
ghost use Rattle.ipdl_typing.specs.Signatures.{signature_of};

use crate::fault::{Cause, StepFault};
use crate::normal_forms::{shape_side, tidy_side};
use crate::variables::settled_argument;
use ipdl_base::Limit;
use ipdl_rules_p::{RuleFault as ProtoFault, apply_proto};
use ipdl_rules_r::{RuleFault as ReactFault, apply_react};
use ipdl_sig::Sig;
use ipdl_term::{Expr, Proto, React, Rule, boxed};
use std::alloc::Global;

// ---- at a protocol

// The right side of the rule for the protocol.
fn applied(alloc: Global, rule: &Rule, term: &Proto) -> Result<Proto, StepFault>
    requires { ProtoRoom.HasRoom (rule_of rule.now) (protocol_of term.now) }
    ensures test { AnswersTest result
        (answer_refusal (answer_of_protocols (P.answer (rule_of rule.now) (protocol_of term.now)))) }
    ensures value { IfOk result (λ right. answer_of_protocols (P.answer (rule_of rule.now) (protocol_of term.now))
        ≡ gives (protocol_term (protocol_of right))) }
{
    match apply_proto(alloc, rule, term) {
        Ok(right) => Ok(right),
        Err(ProtoFault::NoMatch) => Err(StepFault::Refused(Cause::NoMatch)),
        Err(ProtoFault::Side(number)) => Err(StepFault::Refused(Cause::Side(number))),
        Err(ProtoFault::Nodes) => Err(StepFault::Over(Limit::Nodes)),
        Err(ProtoFault::Memory) => Err(StepFault::Memory),
    }
}

// The right side of the settled rule for the protocol. Such a rule has no argument to be settled.
pub(crate) fn protocol_side(alloc: Global, rule: &Rule, term: &Proto) -> Result<Proto, StepFault>
    requires { ProtoRoom.HasRoom (rule_of rule.now) (protocol_of term.now) }
    ensures test { (depth : ℕ) → AnswersTest result
        (answer_refusal (protocol_answer (settled_rule depth (rule_of rule.now)) (protocol_of term.now))) }
    ensures value { (depth : ℕ) → IfOk result (λ right.
        protocol_answer (settled_rule depth (rule_of rule.now)) (protocol_of term.now)
        ≡ gives (protocol_term (protocol_of right))) }
{
    match rule {
        Rule::Shape => shape_side(alloc, term),
        _ => applied(alloc, rule, term),
    }
}

// ---- at a reaction

// The right side of the rule for the reaction.
fn applied_react(alloc: Global, sig: &Sig, rule: &Rule, term: &React) -> Result<React, StepFault>
    requires { HasRoom (rule_of rule.now) (reaction_of term.now) }
    ensures test { AnswersTest result (answer_refusal (answer_of_reactions
        (Q.answer (signature_of sig.now) (rule_of rule.now) (reaction_of term.now)))) }
    ensures value { IfOk result (λ right. answer_of_reactions
        (Q.answer (signature_of sig.now) (rule_of rule.now) (reaction_of term.now))
        ≡ gives (reaction_term (reaction_of right))) }
{
    match apply_react(alloc, sig, rule, term) {
        Ok(right) => Ok(right),
        Err(ReactFault::NoMatch) => Err(StepFault::Refused(Cause::NoMatch)),
        Err(ReactFault::Side(number)) => Err(StepFault::Refused(Cause::Side(number))),
        Err(ReactFault::Nodes) => Err(StepFault::Over(Limit::Nodes)),
        Err(ReactFault::Memory) => Err(StepFault::Memory),
    }
}

// `mask` with its argument settled, which stands under the binder of the flip too.
fn settled_mask(alloc: Global, depth: u32, e: &Expr) -> Result<Box<Rule>, StepFault>
    requires depth { depth ≤ most_nodes }
    requires bound { unsettled_in_expression (depth + 1) (expression_of e.now) ≡ None }
    ensures test { AnswersTest result None }
    ensures value { IfOk result (λ rule.
        rule_of rule.value ≡ R.mask (settled_expression (depth + 1) (expression_of e.now))) }
{
    let settled = settled_argument(alloc, depth + 1, e)?;
    Ok(boxed(alloc, Ok(Rule::Mask(settled)))?)
}

// The right side of `mask` for the reaction.
fn masked(alloc: Global, sig: &Sig, depth: u32, e: &Expr, term: &React) -> Result<React, StepFault>
    requires depth { depth ≤ most_nodes }
    requires bound { unsettled_in_expression (depth + 1) (expression_of e.now) ≡ None }
    requires room { HasRoom (settled_rule depth (R.mask (expression_of e.now))) (reaction_of term.now) }
    ensures test { AnswersTest result (answer_refusal (answer_of_reactions (Q.answer (signature_of sig.now)
        (settled_rule depth (R.mask (expression_of e.now))) (reaction_of term.now)))) }
    ensures value { IfOk result (λ right. answer_of_reactions (Q.answer (signature_of sig.now)
        (settled_rule depth (R.mask (expression_of e.now))) (reaction_of term.now))
        ≡ gives (reaction_term (reaction_of right))) }
{
    let rule = settled_mask(alloc, depth, e)?;
    applied_react(alloc, sig, &rule, term)
}

// The right side of the settled rule for the reaction, where so many binders are around the place.
pub(crate) fn reaction_side(
    alloc: Global,
    sig: &Sig,
    depth: u32,
    rule: &Rule,
    term: &React,
) -> Result<React, StepFault>
    requires depth { depth ≤ most_nodes }
    requires bound { unsettled_in_arguments depth (rule_arguments (rule_of rule.now)) ≡ None }
    requires room { HasRoom (settled_rule depth (rule_of rule.now)) (reaction_of term.now) }
    ensures test { AnswersTest result (answer_refusal (reaction_answer (signature_of sig.now)
        (settled_rule depth (rule_of rule.now)) (reaction_of term.now))) }
    ensures value { IfOk result (λ right. reaction_answer (signature_of sig.now)
        (settled_rule depth (rule_of rule.now)) (reaction_of term.now)
        ≡ gives (reaction_term (reaction_of right))) }
{
    match rule {
        Rule::Mask(e) => masked(alloc, sig, depth, e, term),
        Rule::Tidy => tidy_side(alloc, term),
        _ => applied_react(alloc, sig, rule, term),
    }
}
