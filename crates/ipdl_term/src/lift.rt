//! Lifting: the variables from a number on grow, so that a term can stand under more binders.

ghost use Rattle.std.specs.Prelude.{◌≡◌, IfOk};
ghost use Rattle.ipdl_term.specs.Views.{expression_of, reaction_of};
ghost use Rattle.ipdl_term.specs.Variables.{lifted_expression, lifted_reaction};
ghost use Rattle.ipdl_term.specs.Fitting.{LiftFitsInExpression, LiftFitsInReaction};

use crate::change::{Change, changed_expr, changed_react};
use crate::expression::Expr;
use crate::reaction::React;
use ipdl_base::NoMemory;
use std::alloc::Global;

/// The expression with each variable from `from` on grown by `by`. A caller shows that no such
/// variable then has more than 32 bits.
#[tactic(auto, using(crate::proofs::ChangeFits::lift_fits, crate::proofs::ChangeLemmas::lifted))]
pub fn lift_expr(alloc: Global, term: &Expr, from: u32, by: u32) -> Result<Expr, NoMemory>
    requires { LiftFitsInExpression (expression_of term.now) from by }
    ensures { IfOk result (λ lifted. expression_of lifted ≡ lifted_expression (expression_of term.now) from by) }
{
    changed_expr(alloc, &Change::Lift { by }, u64::from(from), term)
}

/// The reaction with each variable from `from` on grown by `by`, variables being numbered as
/// they are outside of the reaction. A caller shows that no such variable then has more than 32
/// bits.
#[tactic(auto, using(crate::proofs::ChangeFits::lift_fits, crate::proofs::ChangeLemmas::lifted))]
pub fn lift_react(alloc: Global, term: &React, from: u32, by: u32) -> Result<React, NoMemory>
    requires { LiftFitsInReaction (reaction_of term.now) from by }
    ensures { IfOk result (λ lifted. reaction_of lifted ≡ lifted_reaction (reaction_of term.now) from by) }
{
    changed_react(alloc, &Change::Lift { by }, u64::from(from), term)
}
