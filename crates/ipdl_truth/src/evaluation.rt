//! The value of an expression.

ghost use Rattle.std.specs.Prelude.{◌≡◌, ℕ, List, map, length, reverse};
ghost use Rattle.ipdl_term.specs.Interpretations.{evaluation, variable_value};
ghost use Rattle.ipdl_term.specs.Typing.{HasWidth};
ghost use Rattle.ipdl_term.specs.Views.{expression_of};
ghost use Rattle.ipdl_truth.specs.Abstract.{HasTablesOnly};
ghost use Rattle.ipdl_truth.specs.Tables.{tables_of};
ghost use Rattle.ipdl_typing.specs.Signatures.{signature_of};

use crate::operators::{over_one, over_two, selection};
use crate::zeros::nothing;
use ipdl_base::Bits;
use ipdl_sig::Sig;
use ipdl_term::Expr;

// The value of a variable, and nothing where it has no binder.
#[inline(never)]
fn variable_value(env: &[Bits], number: u32) -> Bits
    ensures { result ≡ variable_value (reverse env.now) number }
{
    match env.len().checked_sub(number as usize + 1) {
        Some(index) => env[index],
        None => nothing(),
    }
}

/// The value of any expression: an abstract symbol counts as one that gives zeros, and nothing is the
/// value where widths do not suit. `env` lists the values of the binders from the outermost.
pub fn value_of(sig: &Sig, env: &[Bits], term: &Expr) -> Bits
    ensures { result ≡ evaluation (tables_of (signature_of sig.now)) (reverse env.now)
        (expression_of term.now) }
{
    match term {
        Expr::Lit(bits) => *bits,
        Expr::Var(number) => variable_value(env, *number),
        Expr::Outer(_) => nothing(),
        Expr::Apply(_, a) | Expr::Not(a) | Expr::Cut(_, _, a) => {
            over_one(sig, term, value_of(sig, env, a))
        }
        Expr::Xor(a, b) | Expr::And(a, b) | Expr::Cat(a, b) | Expr::Same(a, b) => {
            over_two(term, value_of(sig, env, a), value_of(sig, env, b))
        }
        Expr::Mux(test, a, b) => selection(
            value_of(sig, env, test),
            value_of(sig, env, a),
            value_of(sig, env, b),
        ),
    }
}

/// The value of a typed expression in which no abstract symbol occurs. `env` lists the values of the
/// binders from the outermost, so the last one is that of variable 0.
pub fn eval_expr(sig: &Sig, env: &[Bits], term: &Expr) -> Bits
    requires typed { (w : ℕ) × HasWidth (signature_of sig.now) (reverse (map length env.now))
        (expression_of term.now) w }
    requires tables { HasTablesOnly (signature_of sig.now) (expression_of term.now) }
    ensures { result ≡ evaluation (tables_of (signature_of sig.now)) (reverse env.now)
        (expression_of term.now) }
{
    value_of(sig, env, term)
}
