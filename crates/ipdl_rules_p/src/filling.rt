//! A reaction with another one at a place of it. What stands beside the way is copied. A place that
//! leaves the reaction, or at which an expression stands, changes nothing.

ghost use Rattle.std.specs.Prelude.{◌≡◌, IfOk};
ghost use Rattle.ipdl_rules_p.specs.Instances.{reaction_with};
ghost use Rattle.ipdl_term.specs.Sizes.{saturated, reaction_nodes};
ghost use Rattle.ipdl_term.specs.Terms.{Reaction};
ghost use Rattle.ipdl_term.specs.Views.{reaction_of};

use ipdl_base::NoMemory;
use ipdl_term::{React, boxed, copy_expr, copy_react, expr_nodes, react_nodes};
use std::alloc::Global;

// How many nodes the reaction will have. The count stands at the last `u64` where it is larger.
#[tactic(auto, using(crate::proofs::FilledReactions::filled))]
pub(crate) fn filled_nodes(whole: &React, place: &[u32], new: &React) -> u64
    ensures { result ≡ saturated (reaction_nodes
        (reaction_with (reaction_of whole.now) place.now (reaction_of new.now))) }
{
    let Some((number, rest)) = place.split_first() else {
        return react_nodes(new);
    };
    match (whole, *number) {
        (React::Cond(e, r, s), 1) => expr_nodes(e)
            .saturating_add(filled_nodes(r, rest, new))
            .saturating_add(react_nodes(s))
            .saturating_add(1),
        (React::Cond(e, r, s), 2) => expr_nodes(e)
            .saturating_add(react_nodes(r))
            .saturating_add(filled_nodes(s, rest, new))
            .saturating_add(1),
        (React::Bind(_, r, s), 0) => filled_nodes(r, rest, new)
            .saturating_add(react_nodes(s))
            .saturating_add(1),
        (React::Bind(_, r, s), 1) => react_nodes(r)
            .saturating_add(filled_nodes(s, rest, new))
            .saturating_add(1),
        _ => react_nodes(whole),
    }
}

// A copy in a box.
fn react_copy(alloc: Global, term: &React) -> Result<Box<React>, NoMemory>
    ensures { IfOk result (λ copy. reaction_of copy.value ≡ reaction_of term.now) }
{
    boxed(alloc, copy_react(alloc, term))
}

// The reaction with the new one at the place, in a box. Made in a call of its own, it takes no room
// in the frames of the walk.
#[cycle(filled)]
#[inline(never)]
fn filled_box(
    alloc: Global,
    whole: &React,
    place: &[u32],
    new: &React,
) -> Result<Box<React>, NoMemory>
    ensures { IfOk result (λ made. reaction_of made.value ≡
        reaction_with (reaction_of whole.now) place.now (reaction_of new.now)) }
{
    boxed(alloc, filled(alloc, whole, place, new))
}

// The reaction with the new one at the place.
#[cycle(filled)]
#[tactic(auto, using(crate::proofs::FilledReactions::filled))]
pub(crate) fn filled(
    alloc: Global,
    whole: &React,
    place: &[u32],
    new: &React,
) -> Result<React, NoMemory>
    ensures { IfOk result (λ made. reaction_of made ≡
        reaction_with (reaction_of whole.now) place.now (reaction_of new.now)) }
{
    let Some((number, rest)) = place.split_first() else {
        return copy_react(alloc, new);
    };
    match (whole, *number) {
        (React::Cond(e, r, s), 1) => {
            let (one, other) = (filled_box(alloc, r, rest, new)?, react_copy(alloc, s)?);
            Ok(React::Cond(copy_expr(alloc, e)?, one, other))
        }
        (React::Cond(e, r, s), 2) => {
            let (one, other) = (react_copy(alloc, r)?, filled_box(alloc, s, rest, new)?);
            Ok(React::Cond(copy_expr(alloc, e)?, one, other))
        }
        (React::Bind(w, r, s), 0) => Ok(React::Bind(
            *w,
            filled_box(alloc, r, rest, new)?,
            react_copy(alloc, s)?,
        )),
        (React::Bind(w, r, s), 1) => Ok(React::Bind(
            *w,
            react_copy(alloc, r)?,
            filled_box(alloc, s, rest, new)?,
        )),
        _ => copy_react(alloc, whole),
    }
}
