//! How many nodes a term has where its variables are replaced, counted without making it.

ghost use Rattle.std.specs.Prelude.{◌≡◌, ◌+◌, ◌^◌, ◌<◌};
ghost use Rattle.ipdl_rules_r.specs.Weights.{weighed_expression, weighed_reaction};
ghost use Rattle.ipdl_term.specs.Sizes.{saturated, reaction_binders};
ghost use Rattle.ipdl_term.specs.Views.{expression_of, reaction_of};

use ipdl_term::{Expr, React};

// The nodes of the expression, where so many stand for the variable of the number, and so many for
// the next one. The count stands at the last `u64` where it is larger.
fn weighed_expr(term: &Expr, number: u64, first: u64, next: u64) -> u64
    requires { number + 1 < 2 ^ 64 }
    ensures { result ≡ saturated (weighed_expression number first next (expression_of term.now)) }
{
    match term {
        Expr::Lit(_) | Expr::Outer(_) => 1,
        Expr::Var(n) => {
            if u64::from(*n) == number {
                first
            } else if u64::from(*n) == number + 1 {
                next
            } else {
                1
            }
        }
        Expr::Apply(_, e) | Expr::Not(e) | Expr::Cut(_, _, e) => weighed_expr(
            e, number, first, next,
        ).saturating_add(1),
        Expr::Xor(a, b) | Expr::And(a, b) | Expr::Cat(a, b) | Expr::Same(a, b) => {
            weighed_expr(a, number, first, next)
                .saturating_add(weighed_expr(b, number, first, next))
                .saturating_add(1)
        }
        Expr::Mux(c, a, b) => weighed_expr(c, number, first, next)
            .saturating_add(weighed_expr(a, number, first, next))
            .saturating_add(weighed_expr(b, number, first, next))
            .saturating_add(1),
    }
}

// The same of a reaction, whose binders are counted.
pub(crate) fn weighed_react(term: &React, number: u64, first: u64, next: u64) -> u64
    requires { number + reaction_binders (reaction_of term.now) + 1 < 2 ^ 64 }
    ensures { result ≡ saturated (weighed_reaction number first next (reaction_of term.now)) }
{
    match term {
        React::Ret(e) => weighed_expr(e, number, first, next).saturating_add(1),
        React::Flip(_) | React::Read(_) => 1,
        React::Cond(e, r, s) => weighed_expr(e, number, first, next)
            .saturating_add(weighed_react(r, number, first, next))
            .saturating_add(weighed_react(s, number, first, next))
            .saturating_add(1),
        React::Bind(_, r, s) => weighed_react(r, number, first, next)
            .saturating_add(weighed_react(s, number + 1, first, next))
            .saturating_add(1),
    }
}
