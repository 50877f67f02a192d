//! The widths of all subexpressions, added up.

ghost use Rattle.std.specs.Prelude.{◌≡◌, ◌+◌, reverse, slice_get, unwrap_or, map};
ghost use Rattle.ipdl_term.specs.Sizes.{saturated};
ghost use Rattle.ipdl_term.specs.Surroundings.{condition_of};
ghost use Rattle.ipdl_term.specs.Views.{expression_of};
ghost use Rattle.ipdl_truth.specs.Operators.{width_of_leaf, width_over_one, width_over_two};
ghost use Rattle.ipdl_truth.specs.Questions.{tests_of, weight_of};
ghost use Rattle.ipdl_truth.specs.Views.{asked_of};
ghost use Rattle.ipdl_truth.specs.Weights.{weight, total_weight};
ghost use Rattle.ipdl_typing.specs.Checks.{expression_width, symbol_to};
ghost use Rattle.ipdl_typing.specs.Signatures.{signature_of};

use crate::question::Question;
use ipdl_sig::Sig;
use ipdl_term::{Condition, Expr};

// The width of an expression, and the sum of the widths of all within it and its own. Each stands
// at the last `u64` where it is larger.
#[derive(Clone, Copy)]
struct Weight {
    width: u64,
    sum: u64,
}

// The weight of an expression of the width, where those of its operands have this sum.
fn node(width: u64, operands: u64) -> Weight
    ensures width { result.width ≡ width }
    ensures sum { result.sum ≡ saturated (width + operands) }
{
    Weight {
        width,
        sum: width.saturating_add(operands),
    }
}

// The width of a variable, 0 where it has no binder.
fn variable_width(widths: &[u8], number: u32) -> u64
    ensures { result ≡ unwrap_or (slice_get (reverse widths.now) number) 0 }
{
    match widths.len().checked_sub(number as usize + 1) {
        Some(index) => u64::from(widths[index]),
        None => 0,
    }
}

// The width of a symbol's result, 0 where there is no such symbol.
fn result_width(sig: &Sig, number: u32) -> u64
    ensures { result ≡ symbol_to (slice_get (signature_of sig.now) number) }
{
    match sig.symbol(number) {
        Some(symbol) => u64::from(symbol.to),
        None => 0,
    }
}

// The weight of an expression with no operand.
#[inline(never)]
fn leaf(widths: &[u8], term: &Expr) -> Weight
    ensures width { result.width ≡ width_of_leaf (reverse widths.now) (expression_of term.now) }
    ensures sum { result.sum ≡ width_of_leaf (reverse widths.now) (expression_of term.now) }
{
    match term {
        Expr::Lit(bits) => node(u64::from(bits.width()), 0),
        Expr::Var(number) => node(variable_width(widths, *number), 0),
        _ => node(0, 0),
    }
}

// The weight of an operator over an operand of this weight.
#[inline(never)]
fn over_one(sig: &Sig, term: &Expr, a: Weight) -> Weight
    ensures width { result.width ≡ width_over_one (signature_of sig.now) (expression_of term.now)
        a.width }
    ensures sum { result.sum ≡ saturated (width_over_one (signature_of sig.now)
        (expression_of term.now) a.width + a.sum) }
{
    match term {
        Expr::Apply(number, _) => node(result_width(sig, *number), a.sum),
        Expr::Not(_) => node(a.width, a.sum),
        Expr::Cut(_, count, _) => node(u64::from(*count), a.sum),
        _ => node(0, a.sum),
    }
}

// The weight of an operator over operands of these weights.
#[inline(never)]
fn over_two(term: &Expr, a: Weight, b: Weight) -> Weight
    ensures width { result.width ≡ saturated (width_over_two (expression_of term.now) a.width
        b.width) }
    ensures sum { result.sum ≡ saturated (width_over_two (expression_of term.now) a.width b.width
        + (a.sum + b.sum)) }
{
    let operands = a.sum.saturating_add(b.sum);
    match term {
        Expr::Xor(_, _) | Expr::And(_, _) => node(a.width, operands),
        Expr::Cat(_, _) => node(a.width.saturating_add(b.width), operands),
        Expr::Same(_, _) => node(1, operands),
        _ => node(0, operands),
    }
}

// The weight of a selection over these.
#[inline(never)]
fn over_three(test: Weight, a: Weight, b: Weight) -> Weight
    ensures width { result.width ≡ a.width }
    ensures sum { result.sum ≡ saturated (a.width + (test.sum + (a.sum + b.sum))) }
{
    node(
        a.width,
        test.sum.saturating_add(a.sum.saturating_add(b.sum)),
    )
}

fn weigh(sig: &Sig, widths: &[u8], term: &Expr) -> Weight
    ensures width { result.width ≡ saturated
        (expression_width (signature_of sig.now) (reverse widths.now) (expression_of term.now)) }
    ensures sum { result.sum ≡ saturated
        (weight (signature_of sig.now) (reverse widths.now) (expression_of term.now)) }
{
    match term {
        Expr::Lit(_) | Expr::Var(_) | Expr::Outer(_) => leaf(widths, term),
        Expr::Apply(_, a) | Expr::Not(a) | Expr::Cut(_, _, a) => {
            over_one(sig, term, weigh(sig, widths, a))
        }
        Expr::Xor(a, b) | Expr::And(a, b) | Expr::Cat(a, b) | Expr::Same(a, b) => {
            over_two(term, weigh(sig, widths, a), weigh(sig, widths, b))
        }
        Expr::Mux(test, a, b) => over_three(
            weigh(sig, widths, test),
            weigh(sig, widths, a),
            weigh(sig, widths, b),
        ),
    }
}

// The sum for the tests.
fn weight_of_tests(sig: &Sig, widths: &[u8], conditions: &[Condition]) -> u64
    ensures { result ≡ saturated (total_weight (signature_of sig.now) (reverse widths.now)
        (tests_of (map condition_of conditions.now))) }
{
    let mut sum = 0u64;
    for condition in conditions {
        sum = sum.saturating_add(weigh(sig, widths, &condition.test).sum);
    }
    sum
}

// The sum for all expressions of a question.
pub(crate) fn weight_of(question: &Question) -> u64
    ensures { result ≡ saturated (weight_of (asked_of question.now)) }
{
    let left = weigh(question.sig, question.widths, question.left).sum;
    let right = weigh(question.sig, question.widths, question.right).sum;
    let tests = weight_of_tests(question.sig, question.widths, question.conditions);
    left.saturating_add(right.saturating_add(tests))
}
