//! The widths of the values that reactions give.

ghost use Rattle.std.specs.Prelude.{◌≡◌, [], reverse, IfOk, IfErr, OnOk};
ghost use Rattle.ipdl_term.specs.Typing.{GivesWidth, scope_of};
ghost use Rattle.ipdl_term.specs.Views.{reaction_of};
ghost use Rattle.ipdl_typing.specs.Answers.{TellsFirstFailure, AnswersWidth};
ghost use Rattle.ipdl_typing.specs.BinderWidths.{widths_of};
ghost use Rattle.ipdl_typing.specs.Checks.{reaction_width, reaction_failures};
ghost use Rattle.ipdl_typing.specs.Places.{path_of};
ghost use Rattle.ipdl_typing.specs.Signatures.{signature_of};
ghost use Rattle.ipdl_typing.specs.Visible.{scope_in};

use crate::binder_widths::BinderWidths;
use crate::expressions::expr_width;
use crate::fault::{IllCause, TypeFault};
use crate::place::Place;
use crate::visible::VisibleChannels;
use ipdl_sig::Sig;
use ipdl_term::{Port, React};
use std::alloc::Global;

// The width of the values that the reaction at the place gives, if all its checks hold.
pub(crate) fn react_width(
    alloc: Global,
    sig: &Sig,
    visible: &VisibleChannels,
    term: &React,
    binders: &BinderWidths,
    place: &Place,
) -> Result<u8, TypeFault>
    ensures { AnswersWidth result
        (reaction_width (signature_of sig.now) (scope_in visible.now) (widths_of binders.now)
        (reaction_of term.now))
        (reaction_failures (signature_of sig.now) (scope_in visible.now) (widths_of binders.now)
        (path_of place.now) (reaction_of term.now)) }
{
    // `&*` lends the place and the binders anew, for as long as the child is checked.
    match term {
        React::Ret(e) => expr_width(alloc, sig, e, binders, &Place::Child(&*place, 0)),
        React::Flip(width) => {
            place.expect_allowed(alloc, *width)?;
            Ok(*width)
        }
        React::Read(channel) => match visible.width_of(channel) {
            Some(width) => Ok(width),
            None => {
                let name = channel.copy(alloc)?;
                Err(place.fault(alloc, IllCause::Unwritten { name }))
            }
        },
        React::Cond(e, r, s) => {
            let first = Place::Child(&*place, 0);
            let test = expr_width(alloc, sig, e, binders, &first)?;
            first.expect_width(alloc, 1, test)?;
            let second = Place::Child(&*place, 1);
            let want = react_width(alloc, sig, visible, r, binders, &second)?;
            let third = Place::Child(&*place, 2);
            let got = react_width(alloc, sig, visible, s, binders, &third)?;
            third.expect_width(alloc, want, got)?;
            Ok(want)
        }
        React::Bind(width, r, s) => {
            let first = Place::Child(&*place, 0);
            let got = react_width(alloc, sig, visible, r, binders, &first)?;
            first.expect_width(alloc, *width, got)?;
            let inner = BinderWidths::Inner(&*binders, *width);
            react_width(alloc, sig, visible, s, &inner, &Place::Child(&*place, 1))
        }
    }
}

/// The width of the values that the reaction gives, in bits. The channels of `scope` are visible,
/// and of several ports of one name the last one counts. `widths` lists the widths of the binders
/// from the outermost, so the last one is that of variable 0.
pub fn check_react(
    alloc: Global,
    sig: &Sig,
    scope: &[Port],
    widths: &[u8],
    term: &React,
) -> Result<u8, TypeFault>
    ensures typed { IfOk result (λ w. GivesWidth (signature_of sig.now)
        (scope_of scope.now) (reverse widths.now) (reaction_of term.now) w) }
    ensures clean { OnOk result (reaction_failures (signature_of sig.now)
        (scope_of scope.now) (reverse widths.now) [] (reaction_of term.now) ≡ []) }
    ensures first { IfErr result (λ fault. TellsFirstFailure fault
        (reaction_failures (signature_of sig.now)
        (scope_of scope.now) (reverse widths.now) [] (reaction_of term.now))) }
{
    let mut visible = VisibleChannels::new(alloc);
    visible.enter_ports(scope, false)?;
    react_width(
        alloc,
        sig,
        &visible,
        term,
        &BinderWidths::Given(widths),
        &Place::Root,
    )
}
