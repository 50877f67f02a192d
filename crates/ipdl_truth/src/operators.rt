//! The operators on values of whatever widths: nothing where the widths do not suit. They stand out
//! of the frames of the walk through an expression.

ghost use Rattle.std.specs.Prelude.{◌≡◌, [], ◌∷◌};
ghost use Rattle.ipdl_base.specs.Bits.{xor_bits, and_bits, same_bits};
ghost use Rattle.ipdl_term.specs.Interpretations.{at_one_width, cat_value, cut_value, chosen};
ghost use Rattle.ipdl_term.specs.Views.{expression_of};
ghost use Rattle.ipdl_truth.specs.Operators.{value_over_one, value_over_two};
ghost use Rattle.ipdl_truth.specs.Tables.{tables_of};
ghost use Rattle.ipdl_typing.specs.Signatures.{signature_of};

use crate::tables::symbol_value;
use crate::zeros::nothing;
use ipdl_base::Bits;
use ipdl_sig::Sig;
use ipdl_term::Expr;

fn exclusive(a: Bits, b: Bits) -> Bits
    ensures { result ≡ at_one_width a b (xor_bits a b) }
{
    a.xor(b).unwrap_or(nothing())
}

fn conjunction(a: Bits, b: Bits) -> Bits
    ensures { result ≡ at_one_width a b (and_bits a b) }
{
    a.and(b).unwrap_or(nothing())
}

fn concatenation(a: Bits, b: Bits) -> Bits
    ensures { result ≡ cat_value a b }
{
    a.cat(b).unwrap_or(nothing())
}

fn segment(from: u8, count: u8, a: Bits) -> Bits
    ensures { result ≡ cut_value from count a }
{
    match a.cut(from, count) {
        Ok(bits) => bits,
        Err(_) => nothing(),
    }
}

fn equality(a: Bits, b: Bits) -> Bits
    ensures { result ≡ at_one_width a b (same_bits a b ∷ []) }
{
    a.same(b).unwrap_or(nothing())
}

// One of two by a bit, and nothing by what is not one bit.
fn one_of(test: Bits, a: Bits, b: Bits) -> Bits
    ensures { result ≡ chosen test a b [] }
{
    if test.width() != 1 {
        return nothing();
    }
    if test.value() == 1 { a } else { b }
}

#[inline(never)]
pub(crate) fn selection(test: Bits, a: Bits, b: Bits) -> Bits
    ensures { result ≡ at_one_width a b (chosen test a b []) }
{
    if a.width() != b.width() {
        return nothing();
    }
    one_of(test, a, b)
}

// The value of an operator of one operand.
#[inline(never)]
pub(crate) fn over_one(sig: &Sig, term: &Expr, a: Bits) -> Bits
    ensures { result ≡ value_over_one (tables_of (signature_of sig.now)) (expression_of term.now) a }
{
    match term {
        Expr::Apply(number, _) => symbol_value(sig, *number, a),
        Expr::Not(_) => a.not(),
        Expr::Cut(from, count, _) => segment(*from, *count, a),
        _ => nothing(),
    }
}

// The value of an operator of two operands.
#[inline(never)]
pub(crate) fn over_two(term: &Expr, a: Bits, b: Bits) -> Bits
    ensures { result ≡ value_over_two (expression_of term.now) a b }
{
    match term {
        Expr::Xor(_, _) => exclusive(a, b),
        Expr::And(_, _) => conjunction(a, b),
        Expr::Cat(_, _) => concatenation(a, b),
        Expr::Same(_, _) => equality(a, b),
        _ => nothing(),
    }
}
