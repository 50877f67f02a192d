//! The outer variables of a step: the first one that has no binder around the place, and the term
//! that is written out with all of them settled.

ghost use Rattle.std.specs.Prelude.{◌≡◌, ◌≤◌, ◌+◌, ◌^◌, ◌<◌, IfOk, None};
ghost use Rattle.ipdl_script.specs.Settling.{unsettled_in_arguments};
ghost use Rattle.ipdl_script.specs.Steps.{variable_test};
ghost use Rattle.ipdl_script.specs.TestGroups.{AnswersTest};
ghost use Rattle.ipdl_term.specs.Rules.{rule_arguments};
ghost use Rattle.ipdl_term.specs.Sizes.{most_nodes, greatest_in_term, term_binders};
ghost use Rattle.ipdl_term.specs.Steps.{rule_of};
ghost use Rattle.ipdl_term.specs.Variables.{settled_expression, settled_term, unsettled_in_expression, unsettled_number};
ghost use Rattle.ipdl_term.specs.Views.{expression_of, term_of};

use crate::fault::{Cause, StepFault};
use ipdl_term::{Expr, Part, Rule, SettleFault, boxed, settle, settle_expr, unsettled_in_expr};
use std::alloc::Global;

// The first outer variable of the rule's arguments that has no binder, where so many are around the
// place.
fn unsettled_argument(depth: u32, rule: &Rule) -> Option<u32>
    requires { depth ≤ most_nodes }
    ensures { result ≡ unsettled_in_arguments depth (rule_arguments (rule_of rule.now)) }
{
    match rule {
        Rule::Mask(e) => unsettled_in_expr(depth + 1, e),
        Rule::Table(_, e) | Rule::Lin(e) => unsettled_in_expr(depth, e),
        _ => None,
    }
}

// Checks that the outer variables of the rule's arguments have binders.
pub(crate) fn check_arguments(depth: u32, rule: &Rule) -> Result<(), StepFault>
    requires { depth ≤ most_nodes }
    ensures { AnswersTest result
        (variable_test (unsettled_in_arguments depth (rule_arguments (rule_of rule.now)))) }
{
    match unsettled_argument(depth, rule) {
        None => Ok(()),
        Some(number) => Err(StepFault::Refused(Cause::NoVariable { number })),
    }
}

// The argument with each outer variable as a variable, where all have binders.
pub(crate) fn settled_argument(alloc: Global, depth: u32, e: &Expr) -> Result<Expr, StepFault>
    requires { unsettled_in_expression depth (expression_of e.now) ≡ None }
    ensures test { AnswersTest result None }
    ensures value { IfOk result (λ settled.
        expression_of settled ≡ settled_expression depth (expression_of e.now)) }
{
    match settle_expr(alloc, depth, e) {
        Ok(settled) => Ok(settled),
        Err(_) => Err(StepFault::Memory),
    }
}

// The term with each outer variable as a variable, if all have binders.
pub(crate) fn settled(alloc: Global, depth: u32, term: &Part) -> Result<Box<Part>, StepFault>
    requires { greatest_in_term (term_of term.now) + term_binders (term_of term.now) + depth < 2 ^ 32 }
    ensures test { AnswersTest result (variable_test (unsettled_number depth (term_of term.now))) }
    ensures value { IfOk result (λ written. term_of written.value ≡ settled_term depth (term_of term.now)) }
{
    match settle(alloc, depth, term) {
        Ok(written) => Ok(boxed(alloc, Ok(written))?),
        Err(SettleFault::NoVariable { number }) => Err(StepFault::Refused(Cause::NoVariable {
            number,
        })),
        Err(SettleFault::Memory) => Err(StepFault::Memory),
    }
}
