//! Whether a variable, a `flip` or a `read` occurs in a term.

ghost use Rattle.std.specs.Prelude.{◌≡◌, ℕ, ◌+◌, ◌^◌, ◌<◌, ◌≤◌, false};
ghost use Rattle.ipdl_term.specs.Views.{expression_of, reaction_of};
ghost use Rattle.ipdl_term.specs.Variables.{expression_uses, reaction_uses, has_flip, has_read};

use crate::expression::Expr;
use crate::reaction::React;

// Whether the variable of this number occurs. No number of 33 bits or more does.
fn expr_uses(term: &Expr, number: u64) -> bool
    ensures value { result ≡ expression_uses (expression_of term.now) number }
    ensures past { (n : ℕ) → 2 ^ 32 ≤ n → expression_uses (expression_of term.now) n ≡ false }
{
    match term {
        Expr::Lit(_) | Expr::Outer(_) => false,
        Expr::Var(n) => u64::from(*n) == number,
        Expr::Apply(_, e) | Expr::Not(e) | Expr::Cut(_, _, e) => expr_uses(e, number),
        Expr::Xor(a, b) | Expr::And(a, b) | Expr::Cat(a, b) | Expr::Same(a, b) => {
            expr_uses(a, number) | expr_uses(b, number)
        }
        Expr::Mux(c, a, b) => {
            expr_uses(c, number) | (expr_uses(a, number) | expr_uses(b, number))
        }
    }
}

// The same of a reaction, whose binders are counted to the last `u64` and no further.
fn react_uses(term: &React, number: u64) -> bool
    ensures value { result ≡ reaction_uses (reaction_of term.now) number }
    ensures past { (n : ℕ) → 2 ^ 32 ≤ n → reaction_uses (reaction_of term.now) n ≡ false }
{
    match term {
        React::Ret(e) => expr_uses(e, number),
        React::Flip(_) | React::Read(_) => false,
        React::Cond(e, r, s) => {
            expr_uses(e, number) | (react_uses(r, number) | react_uses(s, number))
        }
        React::Bind(_, r, s) => react_uses(r, number) | react_uses(s, number.saturating_add(1)),
    }
}

/// Whether the variable occurs in the reaction, its number being counted outside of it.
pub fn uses(term: &React, variable: u32) -> bool
    ensures { result ≡ reaction_uses (reaction_of term.now) variable }
{
    react_uses(term, u64::from(variable))
}

/// Whether the variable occurs in the expression, its number being counted outside of it.
pub fn uses_in_expr(term: &Expr, variable: u32) -> bool
    ensures { result ≡ expression_uses (expression_of term.now) variable }
{
    expr_uses(term, u64::from(variable))
}

/// Whether the reaction has a `flip` in it, be it of no bits.
pub fn has_flip(term: &React) -> bool
    ensures { result ≡ has_flip (reaction_of term.now) }
{
    match term {
        React::Ret(_) | React::Read(_) => false,
        React::Flip(_) => true,
        React::Cond(_, r, s) | React::Bind(_, r, s) => has_flip(r) || has_flip(s),
    }
}

/// Whether the reaction has a `read` in it.
pub fn has_read(term: &React) -> bool
    ensures { result ≡ has_read (reaction_of term.now) }
{
    match term {
        React::Ret(_) | React::Flip(_) => false,
        React::Read(_) => true,
        React::Cond(_, r, s) | React::Bind(_, r, s) => has_read(r) || has_read(s),
    }
}
