//! Normal forms as right sides: of `shape` at a protocol, and of `tidy` at a reaction.

ghost use Rattle.std.specs.Prelude.{◌≡◌, ◌+◌, ◌^◌, ◌<◌, IfOk, Some};
ghost use Rattle.ipdl_norm.specs.Repeated.{first_repeated_name};
ghost use Rattle.ipdl_norm.specs.Tidied.{tidied};
ghost use Rattle.ipdl_script.specs.Instances.{gives, shape_answer};
ghost use Rattle.ipdl_script.specs.Steps.{limit_test};
ghost use Rattle.ipdl_script.specs.TestGroups.{AnswersTest, answer_refusal};
ghost use Rattle.ipdl_term.specs.Sizes.{most_nodes, protocol_nodes, greatest_in_reaction, reaction_binders};
ghost use Rattle.ipdl_term.specs.Terms.{protocol_term, reaction_term};
ghost use Rattle.ipdl_term.specs.Views.{protocol_of, reaction_of};

use crate::fault::{Cause, StepFault};
use crate::limits::check_limit;
use ipdl_base::Limit;
use ipdl_norm::{ShapeFault, shape, tidy};
use ipdl_term::{Proto, React, TermFault, proto_nodes};
use std::alloc::Global;

// Checks how many nodes the protocol has.
fn check_nodes(made: &Proto) -> Result<(), StepFault>
    ensures { AnswersTest result (limit_test Limit.Nodes most_nodes (protocol_nodes (protocol_of made.now))) }
{
    check_limit(Limit::Nodes, Limit::Nodes.number(), proto_nodes(made))
}

// The right side of `shape` for the protocol.
pub(crate) fn shape_side(alloc: Global, term: &Proto) -> Result<Proto, StepFault>
    ensures test { AnswersTest result (answer_refusal
        (shape_answer (first_repeated_name (protocol_of term.now)) (protocol_of term.now))) }
    ensures value { IfOk result (λ right.
        shape_answer (first_repeated_name (protocol_of term.now)) (protocol_of term.now)
        ≡ gives (protocol_term (protocol_of right))) }
{
    match shape(alloc, term) {
        Ok(made) => {
            check_nodes(&made)?;
            Ok(made)
        }
        Err(ShapeFault::NamesRepeat { .. }) => Err(StepFault::Refused(Cause::Side(1))),
        Err(ShapeFault::Memory) => Err(StepFault::Memory),
    }
}

// The right side of `tidy` for the reaction.
pub(crate) fn tidy_side(alloc: Global, term: &React) -> Result<React, StepFault>
    requires { greatest_in_reaction (reaction_of term.now) + reaction_binders (reaction_of term.now) < 2 ^ 32 }
    ensures test { AnswersTest result (answer_refusal (gives (reaction_term (tidied (reaction_of term.now))))) }
    ensures value { IfOk result (λ right. gives (reaction_term (tidied (reaction_of term.now)))
        ≡ gives (reaction_term (reaction_of right))) }
{
    match tidy(alloc, term) {
        Ok(made) => Ok(made),
        Err(TermFault::Nodes) => Err(StepFault::Over(Limit::Nodes)),
        Err(TermFault::Memory) => Err(StepFault::Memory),
    }
}
