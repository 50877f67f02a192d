//! The widths of expressions.

ghost use Rattle.std.specs.Prelude.{◌≡◌, [], reverse, IfOk, IfErr, OnOk};
ghost use Rattle.ipdl_term.specs.Typing.{HasWidth};
ghost use Rattle.ipdl_term.specs.Views.{expression_of};
ghost use Rattle.ipdl_typing.specs.Answers.{TellsFirstFailure, AnswersWidth};
ghost use Rattle.ipdl_typing.specs.BinderWidths.{widths_of};
ghost use Rattle.ipdl_typing.specs.Checks.{expression_width, expression_failures, wanted_failures};
ghost use Rattle.ipdl_typing.specs.Places.{path_of};
ghost use Rattle.ipdl_typing.specs.Signatures.{signature_of};

use crate::binder_widths::BinderWidths;
use crate::fault::{IllCause, TypeFault};
use crate::place::Place;
use ipdl_sig::Sig;
use ipdl_term::Expr;
use std::alloc::Global;

// The wanted width, if the expression at the place has it.
#[cycle(expression)]
fn expect_expr(
    alloc: Global,
    sig: &Sig,
    term: &Expr,
    binders: &BinderWidths,
    place: &Place,
    want: u8,
) -> Result<u8, TypeFault>
    ensures { AnswersWidth result want
        (wanted_failures (signature_of sig.now) (widths_of binders.now) (path_of place.now)
        (expression_of term.now) want) }
{
    let got = expr_width(alloc, sig, term, binders, place)?;
    place.expect_width(alloc, want, got)?;
    Ok(want)
}

// The width of the expression at the place, if all its checks hold.
#[cycle(expression)]
pub(crate) fn expr_width(
    alloc: Global,
    sig: &Sig,
    term: &Expr,
    binders: &BinderWidths,
    place: &Place,
) -> Result<u8, TypeFault>
    ensures { AnswersWidth result
        (expression_width (signature_of sig.now) (widths_of binders.now) (expression_of term.now))
        (expression_failures (signature_of sig.now) (widths_of binders.now) (path_of place.now)
        (expression_of term.now)) }
{
    match term {
        Expr::Lit(bits) => Ok(bits.width()),
        Expr::Var(number) => match binders.width(*number) {
            Some(width) => Ok(width),
            None => Err(place.fault(alloc, IllCause::Unbound { number: *number })),
        },
        Expr::Outer(number) => Err(place.fault(alloc, IllCause::Unbound { number: *number })),
        Expr::Apply(number, e) => {
            let Some(symbol) = sig.symbol(*number) else {
                return Err(place.fault(alloc, IllCause::NoSymbol { number: *number }));
            };
            expect_expr(
                alloc,
                sig,
                e,
                binders,
                &Place::Child(&*place, 0),
                symbol.from,
            )?;
            Ok(symbol.to)
        }
        Expr::Xor(a, b) | Expr::And(a, b) => {
            let want = expr_width(alloc, sig, a, binders, &Place::Child(&*place, 0))?;
            expect_expr(alloc, sig, b, binders, &Place::Child(&*place, 1), want)
        }
        Expr::Not(a) => expr_width(alloc, sig, a, binders, &Place::Child(&*place, 0)),
        Expr::Cat(a, b) => {
            let high = expr_width(alloc, sig, a, binders, &Place::Child(&*place, 0))?;
            let low = expr_width(alloc, sig, b, binders, &Place::Child(&*place, 1))?;
            place.expect_sum(alloc, high, low)
        }
        Expr::Cut(from, count, a) => {
            let first = Place::Child(&*place, 0);
            let got = expr_width(alloc, sig, a, binders, &first)?;
            first.expect_within(alloc, *from, *count, got)?;
            Ok(*count)
        }
        Expr::Same(a, b) => {
            let want = expr_width(alloc, sig, a, binders, &Place::Child(&*place, 0))?;
            expect_expr(alloc, sig, b, binders, &Place::Child(&*place, 1), want)?;
            Ok(1)
        }
        Expr::Mux(test, a, b) => {
            expect_expr(alloc, sig, test, binders, &Place::Child(&*place, 0), 1)?;
            let want = expr_width(alloc, sig, a, binders, &Place::Child(&*place, 1))?;
            expect_expr(alloc, sig, b, binders, &Place::Child(&*place, 2), want)
        }
    }
}

/// The width of the expression, in bits. `widths` lists the widths of the binders from the
/// outermost, so the last one is that of variable 0. An outer variable has no binder here.
pub fn check_expr(alloc: Global, sig: &Sig, widths: &[u8], term: &Expr) -> Result<u8, TypeFault>
    ensures typed { IfOk result (λ w.
        HasWidth (signature_of sig.now) (reverse widths.now) (expression_of term.now) w) }
    ensures clean { OnOk result (expression_failures (signature_of sig.now)
        (reverse widths.now) [] (expression_of term.now) ≡ []) }
    ensures first { IfErr result (λ fault. TellsFirstFailure fault
        (expression_failures (signature_of sig.now) (reverse widths.now) []
        (expression_of term.now))) }
{
    expr_width(alloc, sig, term, &BinderWidths::Given(widths), &Place::Root)
}
