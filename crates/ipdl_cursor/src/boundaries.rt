//! What is entered on the way to a place.

ghost use Rattle.std.specs.Prelude.{◌≡◌, ◌++◌, [], map, option_map, IfOk, OnOk};
ghost use Rattle.ipdl_cursor.specs.Boundaries.{boundary_of, boundary_at, with_boundary, boundaries_to};
ghost use Rattle.ipdl_cursor.specs.Views.{part_of};

use crate::part_ref::{PartRef, child};
use ipdl_base::{Name, NoMemory};
use ipdl_term::{Expr, Proto, React};
use std::alloc::Global;

// What is entered between a part and its child.
#[derive(Clone, Copy)]
pub(crate) enum Boundary<'a> {
    // A hidden channel, with its width.
    Channel(&'a Name, u8),
    // A binder of this width.
    Binder(u8),
    // The arm of an `if` in which the test has this value.
    Arm(&'a Expr, bool),
}

// What is entered on the way to the child of this number.
fn boundary_at<'a>(part: PartRef<'a>, number: u32) -> Option<Boundary<'a>>
    ensures { option_map boundary_of result ≡ boundary_at (part_of part.entry) number }
{
    match part {
        PartRef::P(Proto::Hide(c, w, _)) => match number {
            0 => Some(Boundary::Channel(c, *w)),
            _ => None,
        },
        PartRef::R(React::Cond(e, _, _)) => match number {
            1 => Some(Boundary::Arm(e, true)),
            2 => Some(Boundary::Arm(e, false)),
            _ => None,
        },
        PartRef::R(React::Bind(w, _, _)) => match number {
            1 => Some(Boundary::Binder(*w)),
            _ => None,
        },
        _ => None,
    }
}

// Adds what is entered on the way to the child of this number.
fn push_boundary<'a>(
    boundaries: &mut Vec<Boundary<'a>>,
    part: PartRef<'a>,
    number: u32,
) -> Result<(), NoMemory>
    ensures { OnOk result (map boundary_of boundaries.new.items ≡
        map boundary_of boundaries.old.items
        ++ with_boundary (boundary_at (part_of part.entry) number) []) }
{
    if let Some(boundary) = boundary_at(part, number) {
        boundaries.push(boundary)?;
    }
    Ok(())
}

// What is entered on the way to the place.
pub(crate) fn boundaries_to<'a>(
    alloc: Global,
    whole: PartRef<'a>,
    place: &[u32],
) -> Result<Vec<Boundary<'a>>, NoMemory>
    ensures { IfOk result (λ bs.
        map boundary_of bs.items ≡ boundaries_to (part_of whole.entry) place.now) }
{
    let mut boundaries = Vec::new(alloc);
    let mut part = whole;
    for number in place {
        match child(part, *number) {
            Some(next) => {
                push_boundary(&mut boundaries, part, *number)?;
                part = next;
            }
            None => return Ok(boundaries),
        }
    }
    Ok(boundaries)
}
