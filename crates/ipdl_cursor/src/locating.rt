//! The part at a place, with the number of binders around it, found without taking memory.

ghost use Rattle.std.specs.Prelude.{◌≡◌, ◌↔◌, ◌≤◌, [], Some, None, IfSome, length};
ghost use Rattle.ipdl_term.specs.Places.{term_at};
ghost use Rattle.ipdl_term.specs.Sizes.{protocol_binders};
ghost use Rattle.ipdl_term.specs.Surroundings.{around, outermost};
ghost use Rattle.ipdl_term.specs.Terms.{protocol_term};
ghost use Rattle.ipdl_term.specs.Typing.{Scope};
ghost use Rattle.ipdl_term.specs.Views.{protocol_of};
ghost use Rattle.ipdl_cursor.specs.Boundaries.{binder_widths, boundaries_to, boundary_at, with_boundary};
ghost use Rattle.ipdl_cursor.specs.Views.{part_of};

use crate::part_ref::{PartRef, child, part_at};
use ipdl_base::Path;
use ipdl_term::{Proto, React};

/// A part of a protocol, and how many binders are around it.
#[derive(Clone, Copy)]
pub struct Spot<'a> {
    pub part: PartRef<'a>,
    /// The binders that are passed on the way.
    pub depth: u64,
}

// How many binders are entered on the way to the child of this number.
fn binders_at(part: PartRef, number: u32) -> u64
    ensures value { result ≡ length (binder_widths
        (with_boundary (boundary_at (part_of part.entry) number) [])) }
    ensures few { result ≤ 1 }
{
    match part {
        PartRef::R(React::Bind(_, _, _)) if number == 1 => 1,
        _ => 0,
    }
}

// How many binders are entered on the way to the place.
fn binders_to(whole: PartRef, place: &[u32]) -> u64
    ensures { result ≡ length (binder_widths (boundaries_to (part_of whole.entry) place.now)) }
{
    let mut binders = 0;
    let mut part = whole;
    for number in place {
        match child(part, *number) {
            Some(next) => {
                binders += binders_at(part, *number);
                part = next;
            }
            None => return binders,
        }
    }
    binders
}

/// The part at the place, with how many binders are around it, none exactly where the place leaves
/// the protocol.
pub fn locate<'a>(proto: &'a Proto, path: &Path) -> Option<Spot<'a>>
    ensures part { IfSome result (λ spot.
        term_at (protocol_term (protocol_of proto.now)) path.now ≡ Some (part_of spot.part)) }
    ensures depth { (S : Scope) → IfSome result (λ spot. spot.depth ≡
        length (around (outermost S) (protocol_term (protocol_of proto.now)) path.now).widths) }
    ensures few { IfSome result (λ spot. spot.depth ≤ protocol_binders (protocol_of proto.now)) }
    ensures none { (result ≡ None) ↔
        (term_at (protocol_term (protocol_of proto.now)) path.now ≡ None) }
{
    let whole = PartRef::P(proto);
    let part = part_at(whole, path.parts())?;
    Some(Spot {
        part,
        depth: binders_to(whole, path.parts()),
    })
}
