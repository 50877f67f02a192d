//! The widths of all subexpressions, added up.

ghost use Rattle.std.specs.Prelude.{◌≡◌, ◌+◌, reverse};
ghost use Rattle.ipdl_linear.specs.Likeness.{pair_of, weight_of};
ghost use Rattle.ipdl_linear.specs.Weights.{weight};
ghost use Rattle.ipdl_term.specs.Sizes.{saturated};
ghost use Rattle.ipdl_term.specs.Views.{expression_of};
ghost use Rattle.ipdl_typing.specs.Checks.{expression_width};
ghost use Rattle.ipdl_typing.specs.Signatures.{signature_of};

use crate::leaves::variable_width;
use crate::walk::result_width;
use ipdl_sig::Sig;
use ipdl_term::Expr;

// The width of an expression, and the sum of it and the widths of all that stands within. Each
// stands at the last `u64` where it is larger.
#[derive(Clone, Copy)]
struct Weight {
    width: u64,
    sum: u64,
}

// Of an expression of the width whose operands have this sum.
fn node(width: u64, operands: u64) -> Weight
    ensures width { result.width ≡ width }
    ensures sum { result.sum ≡ saturated (width + operands) }
{
    Weight {
        width,
        sum: width.saturating_add(operands),
    }
}

// The sum for two operands.
fn both(a: Weight, b: Weight) -> u64
    ensures { result ≡ saturated (a.sum + b.sum) }
{
    a.sum.saturating_add(b.sum)
}

fn weigh(sig: &Sig, widths: &[u8], term: &Expr) -> Weight
    ensures width { result.width ≡ saturated
        (expression_width (signature_of sig.now) (reverse widths.now) (expression_of term.now)) }
    ensures sum { result.sum ≡ saturated
        (weight (signature_of sig.now) (reverse widths.now) (expression_of term.now)) }
{
    match term {
        Expr::Lit(bits) => node(u64::from(bits.width()), 0),
        Expr::Var(number) => node(u64::from(variable_width(widths, *number)), 0),
        Expr::Outer(_) => node(0, 0),
        Expr::Apply(number, a) => {
            let a = weigh(sig, widths, a);
            node(u64::from(result_width(sig, *number)), a.sum)
        }
        Expr::Not(a) => {
            let a = weigh(sig, widths, a);
            node(a.width, a.sum)
        }
        Expr::Cut(_, count, a) => {
            let a = weigh(sig, widths, a);
            node(u64::from(*count), a.sum)
        }
        Expr::Xor(a, b) | Expr::And(a, b) => {
            let a = weigh(sig, widths, a);
            let b = weigh(sig, widths, b);
            node(a.width, both(a, b))
        }
        Expr::Cat(a, b) => {
            let a = weigh(sig, widths, a);
            let b = weigh(sig, widths, b);
            node(a.width.saturating_add(b.width), both(a, b))
        }
        Expr::Same(a, b) => {
            let a = weigh(sig, widths, a);
            let b = weigh(sig, widths, b);
            node(1, both(a, b))
        }
        Expr::Mux(test, a, b) => {
            let test = weigh(sig, widths, test);
            let a = weigh(sig, widths, a);
            let b = weigh(sig, widths, b);
            node(a.width, test.sum.saturating_add(both(a, b)))
        }
    }
}

// The sum for two expressions.
pub(crate) fn weight_of(sig: &Sig, widths: &[u8], left: &Expr, right: &Expr) -> u64
    ensures { result ≡ saturated (weight_of (pair_of sig.now widths.now left.now right.now)) }
{
    both(weigh(sig, widths, left), weigh(sig, widths, right))
}
