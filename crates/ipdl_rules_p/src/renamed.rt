//! A protocol with a new name for one of its channels, in memory of its own.

ghost use Rattle.std.specs.Prelude.{◌≡◌, IfOk};
ghost use Rattle.ipdl_term.specs.Renaming.{keeping, renaming_one, renamed_reaction, renamed};
ghost use Rattle.ipdl_term.specs.Views.{reaction_of, protocol_of};

use crate::reading::is_same;
use ipdl_base::{Name, NoMemory};
use ipdl_term::{Proto, React, boxed, copy_expr, copy_proto};
use std::alloc::Global;

// The new name of a channel, where the first one has the other's name.
fn renamed_name(alloc: Global, name: &Name, old: &Name, new: &Name) -> Result<Name, NoMemory>
    ensures { IfOk result (λ made. made ≡ renaming_one old.now new.now name.now) }
{
    if is_same(old, name) {
        new.copy(alloc)
    } else {
        name.copy(alloc)
    }
}

// The renamed reaction in a box. Made in a call of its own, it takes no room in the frames of the
// walk.
#[cycle(renamed_react)]
#[inline(never)]
fn renamed_react_box(
    alloc: Global,
    term: &React,
    old: &Name,
    new: &Name,
) -> Result<Box<React>, NoMemory>
    ensures { IfOk result (λ made. reaction_of made.value ≡
        renamed_reaction (renaming_one old.now new.now) (reaction_of term.now)) }
{
    boxed(alloc, renamed_react(alloc, term, old, new))
}

// The renamed reaction.
#[cycle(renamed_react)]
fn renamed_react(alloc: Global, term: &React, old: &Name, new: &Name) -> Result<React, NoMemory>
    ensures { IfOk result (λ made. reaction_of made ≡
        renamed_reaction (renaming_one old.now new.now) (reaction_of term.now)) }
{
    Ok(match term {
        React::Ret(e) => React::Ret(copy_expr(alloc, e)?),
        React::Flip(w) => React::Flip(*w),
        React::Read(c) => React::Read(renamed_name(alloc, c, old, new)?),
        React::Cond(e, r, s) => {
            let (one, other) = (
                renamed_react_box(alloc, r, old, new)?,
                renamed_react_box(alloc, s, old, new)?,
            );
            React::Cond(copy_expr(alloc, e)?, one, other)
        }
        React::Bind(w, r, s) => React::Bind(
            *w,
            renamed_react_box(alloc, r, old, new)?,
            renamed_react_box(alloc, s, old, new)?,
        ),
    })
}

// The renamed protocol in a box, likewise.
#[cycle(renamed_proto)]
#[inline(never)]
fn renamed_proto_box(
    alloc: Global,
    proto: &Proto,
    old: &Name,
    new: &Name,
) -> Result<Box<Proto>, NoMemory>
    ensures { IfOk result (λ made. protocol_of made.value ≡
        renamed (renaming_one old.now new.now) (protocol_of proto.now)) }
{
    boxed(alloc, renamed_proto(alloc, proto, old, new))
}

// What stands in a `new` of this name: below a `new` of the old name nothing is renamed.
#[cycle(renamed_proto)]
#[tactic(auto, using(crate::proofs::RenamingOne::renamed_below))]
fn renamed_below(
    alloc: Global,
    hidden: &Name,
    proto: &Proto,
    old: &Name,
    new: &Name,
) -> Result<Box<Proto>, NoMemory>
    ensures { IfOk result (λ made. protocol_of made.value ≡
        renamed (keeping hidden.now (renaming_one old.now new.now)) (protocol_of proto.now)) }
{
    if is_same(old, hidden) {
        boxed(alloc, copy_proto(alloc, proto))
    } else {
        renamed_proto_box(alloc, proto, old, new)
    }
}

// The protocol with the new name for its free channel of the old name.
#[cycle(renamed_proto)]
pub(crate) fn renamed_proto(
    alloc: Global,
    proto: &Proto,
    old: &Name,
    new: &Name,
) -> Result<Proto, NoMemory>
    ensures { IfOk result (λ made. protocol_of made ≡
        renamed (renaming_one old.now new.now) (protocol_of proto.now)) }
{
    Ok(match proto {
        Proto::Nil => Proto::Nil,
        Proto::Out(c, r) => Proto::Out(
            renamed_name(alloc, c, old, new)?,
            renamed_react(alloc, r, old, new)?,
        ),
        Proto::Par(p, q) => Proto::Par(
            renamed_proto_box(alloc, p, old, new)?,
            renamed_proto_box(alloc, q, old, new)?,
        ),
        Proto::Hide(c, w, p) => Proto::Hide(
            c.copy(alloc)?,
            *w,
            renamed_below(alloc, c, p, old, new)?,
        ),
    })
}
