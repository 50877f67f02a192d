//! Whether a term without variable 0 is another one, found without taking memory.

ghost use Rattle.std.specs.Prelude.{◌≡◌, ◌+◌, ◌^◌, ◌<◌, []};
ghost use Rattle.ipdl_term.specs.Rewriting.{lowered_reaction};
ghost use Rattle.ipdl_term.specs.Same.{same_expression, same_reaction};
ghost use Rattle.ipdl_term.specs.Sizes.{reaction_binders};
ghost use Rattle.ipdl_term.specs.Terms.{literal};
ghost use Rattle.ipdl_term.specs.Variables.{put_number, put_expression, put_reaction};
ghost use Rattle.ipdl_term.specs.Views.{expression_of, reaction_of};

use ipdl_term::{Expr, React};

// Whether the first, with no bits for the variable of the number and those behind it lowered by
// one, is the other.
fn is_lowered_expr(term: &Expr, number: u64, other: &Expr) -> bool
    ensures { result ≡ same_expression (put_expression number (expression_of term.now) (literal [])) (expression_of other.now) }
{
    match (term, other) {
        (Expr::Var(n), _) => is_lowered_variable(*n, number, other),
        (Expr::Lit(a), Expr::Lit(b)) => *a == *b,
        (Expr::Outer(m), Expr::Outer(n)) => *m == *n,
        (Expr::Apply(f, a), Expr::Apply(g, b)) => *f == *g && is_lowered_expr(a, number, b),
        (Expr::Xor(a, b), Expr::Xor(c, d)) => {
            is_lowered_expr(a, number, c) && is_lowered_expr(b, number, d)
        }
        (Expr::And(a, b), Expr::And(c, d)) => {
            is_lowered_expr(a, number, c) && is_lowered_expr(b, number, d)
        }
        (Expr::Not(a), Expr::Not(b)) => is_lowered_expr(a, number, b),
        (Expr::Cat(a, b), Expr::Cat(c, d)) => {
            is_lowered_expr(a, number, c) && is_lowered_expr(b, number, d)
        }
        (Expr::Cut(i, m, a), Expr::Cut(j, n, b)) => {
            *i == *j && *m == *n && is_lowered_expr(a, number, b)
        }
        (Expr::Same(a, b), Expr::Same(c, d)) => {
            is_lowered_expr(a, number, c) && is_lowered_expr(b, number, d)
        }
        (Expr::Mux(a, b, c), Expr::Mux(d, e, f)) => {
            is_lowered_expr(a, number, d)
                && is_lowered_expr(b, number, e)
                && is_lowered_expr(c, number, f)
        }
        _ => false,
    }
}

// The same of a variable.
fn is_lowered_variable(n: u32, number: u64, other: &Expr) -> bool
    ensures { result ≡ same_expression (put_number number (literal []) n) (expression_of other.now) }
{
    match other {
        Expr::Var(m) => {
            if u64::from(n) < number {
                n == *m
            } else {
                u64::from(n) > number && n - 1 == *m
            }
        }
        Expr::Lit(bits) => u64::from(n) == number && bits.width() == 0,
        _ => false,
    }
}

// The same of a reaction, whose binders are counted.
fn is_lowered_react(term: &React, number: u64, other: &React) -> bool
    requires { number + reaction_binders (reaction_of term.now) < 2 ^ 64 }
    ensures { result ≡ same_reaction (put_reaction number (reaction_of term.now) (literal [])) (reaction_of other.now) }
{
    match (term, other) {
        (React::Ret(a), React::Ret(b)) => is_lowered_expr(a, number, b),
        (React::Flip(v), React::Flip(w)) => *v == *w,
        (React::Read(c), React::Read(d)) => *c == *d,
        (React::Cond(a, r, s), React::Cond(b, t, u)) => {
            is_lowered_expr(a, number, b)
                && is_lowered_react(r, number, t)
                && is_lowered_react(s, number, u)
        }
        (React::Bind(v, r, s), React::Bind(w, t, u)) => {
            *v == *w && is_lowered_react(r, number, t) && is_lowered_react(s, number + 1, u)
        }
        _ => false,
    }
}

// Whether the first, without variable 0, is the other.
pub(crate) fn is_lowered(term: &React, other: &React) -> bool
    requires { reaction_binders (reaction_of term.now) < 2 ^ 64 }
    ensures { result ≡ same_reaction (lowered_reaction (reaction_of term.now)) (reaction_of other.now) }
{
    is_lowered_react(term, 0, other)
}
