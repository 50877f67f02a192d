//! The part at a place, with what is around it.

ghost use Rattle.std.specs.Prelude.{◌≡◌, ◌↔◌, ◌+◌, ◌^◌, ◌<◌, ◌++◌, Some, None, length, map, reverse, IfOk, OnOk};
ghost use Rattle.ipdl_term.specs.Places.{term_at};
ghost use Rattle.ipdl_term.specs.Sizes.{greatest_in_protocol, protocol_binders};
ghost use Rattle.ipdl_term.specs.Surroundings.{around, outermost, condition_of};
ghost use Rattle.ipdl_term.specs.Terms.{protocol_term};
ghost use Rattle.ipdl_term.specs.Typing.{Scope};
ghost use Rattle.ipdl_term.specs.Views.{protocol_of};
ghost use Rattle.ipdl_cursor.specs.Boundaries.{boundary_of, binder_widths, channel_ports, arm_conditions, greatest_in_arms};
ghost use Rattle.ipdl_cursor.specs.Hidden.{hidden_ports};
ghost use Rattle.ipdl_cursor.specs.Views.{part_of};

use crate::boundaries::{Boundary, boundaries_to};
use crate::part_ref::{PartRef, part_at};
use ipdl_base::{List, NoMemory, Path};
use ipdl_term::{Condition, Interface, Port, Proto, lift_expr};
use std::alloc::Global;

/// A part of a protocol, and what is around it.
#[derive(Drop)]
pub struct Found<'a> {
    pub part: PartRef<'a>,
    /// The widths of the binders that are passed on the way, from the outermost.
    pub widths: List<u8>,
    /// The tests of the enclosing `if`, each with the arm's value, innermost first. Their variables
    /// are those of the place.
    pub conditions: List<Condition>,
    /// The interface's inputs, its outputs, and then the hidden channels, from the outermost.
    pub scope: List<Port>,
}

/// Why no part is answered.
#[derive(Clone, Copy, Debug, PartialEq, Eq)]
pub enum FocusFault {
    /// The path leaves the protocol.
    NoPlace,
    /// Memory ran out.
    Memory,
}

// The widths of the binders.
fn widths(alloc: Global, boundaries: &[Boundary]) -> Result<List<u8>, NoMemory>
    ensures { IfOk result (λ ws. ws ≡ binder_widths (map boundary_of boundaries.now)) }
{
    let mut widths = List::empty(alloc);
    for boundary in boundaries {
        if let Boundary::Binder(width) = boundary {
            widths.push(*width)?;
        }
    }
    Ok(widths)
}

// Copies of ports, after those that are there.
fn push_ports(alloc: Global, scope: &mut List<Port>, ports: &[Port]) -> Result<(), NoMemory>
    ensures { OnOk result (scope.new ≡ scope.old ++ ports.now) }
{
    for port in ports {
        scope.push(Port {
            name: port.name.copy(alloc)?,
            width: port.width,
        })?;
    }
    Ok(())
}

// The hidden channels, after the ports that are there.
fn push_hidden(
    alloc: Global,
    scope: &mut List<Port>,
    boundaries: &[Boundary],
) -> Result<(), NoMemory>
    ensures { OnOk result (scope.new ≡
        scope.old ++ channel_ports (map boundary_of boundaries.now)) }
{
    for boundary in boundaries {
        if let Boundary::Channel(name, width) = boundary {
            scope.push(Port {
                name: name.copy(alloc)?,
                width: *width,
            })?;
        }
    }
    Ok(())
}

// The inputs, the outputs and the hidden channels.
fn scope(
    alloc: Global,
    interface: &Interface,
    boundaries: &[Boundary],
) -> Result<List<Port>, NoMemory>
    ensures { IfOk result (λ ports. ports ≡
        interface.now.inputs ++ interface.now.outputs ++ channel_ports (map boundary_of boundaries.now)) }
{
    let mut scope = List::empty(alloc);
    push_ports(alloc, &mut scope, interface.inputs.as_slice())?;
    push_ports(alloc, &mut scope, interface.outputs.as_slice())?;
    push_hidden(alloc, &mut scope, boundaries)?;
    Ok(scope)
}

// The conditions of the arms, from the outermost. Each is lifted over the binders after it.
fn conditions(
    alloc: Global,
    boundaries: &[Boundary],
    binders: u32,
) -> Result<Vec<Condition>, NoMemory>
    requires binders { binders ≡ length (binder_widths (map boundary_of boundaries.now)) }
    requires room { greatest_in_arms (map boundary_of boundaries.now) + binders < 2 ^ 32 }
    ensures { IfOk result (λ cs.
        map condition_of cs.items ≡ arm_conditions (map boundary_of boundaries.now)) }
{
    let mut conditions = Vec::new(alloc);
    let mut by = binders;
    for boundary in boundaries {
        match boundary {
            Boundary::Channel(_, _) => {}
            Boundary::Binder(_) => by -= 1,
            Boundary::Arm(test, value) => {
                let test = lift_expr(alloc, test, 0, by)?;
                conditions.push(Condition {
                    test,
                    value: *value,
                })?;
            }
        }
    }
    Ok(conditions)
}

// The part with what is around it.
fn with_surroundings<'a>(
    alloc: Global,
    interface: &Interface,
    part: PartRef<'a>,
    boundaries: &[Boundary],
) -> Result<Found<'a>, NoMemory>
    requires { greatest_in_arms (map boundary_of boundaries.now)
        + length (binder_widths (map boundary_of boundaries.now)) < 2 ^ 32 }
    ensures part { IfOk result (λ found. part_of found.part ≡ part_of part.entry) }
    ensures widths { IfOk result (λ found.
        found.widths ≡ binder_widths (map boundary_of boundaries.now)) }
    ensures conditions { IfOk result (λ found. map condition_of found.conditions
        ≡ reverse (arm_conditions (map boundary_of boundaries.now))) }
    ensures scope { IfOk result (λ found. found.scope ≡
        interface.now.inputs ++ interface.now.outputs ++ channel_ports (map boundary_of boundaries.now)) }
{
    let widths = widths(alloc, boundaries)?;
    let binders = widths.as_slice().len() as u32;
    let mut conditions = conditions(alloc, boundaries, binders)?;
    conditions.reverse();
    let scope = scope(alloc, interface, boundaries)?;
    Ok(Found {
        part,
        widths,
        conditions: List::from_vec(conditions),
        scope,
    })
}

/// The part at the place, with what is around it. A caller shows that the conditions can be lifted
/// within 32 bits.
pub fn focus<'a>(
    alloc: Global,
    interface: &Interface,
    proto: &'a Proto,
    path: &Path,
) -> Result<Found<'a>, FocusFault>
    requires { greatest_in_protocol (protocol_of proto.now)
        + protocol_binders (protocol_of proto.now) < 2 ^ 32 }
    ensures part { IfOk result (λ found.
        term_at (protocol_term (protocol_of proto.now)) path.now ≡ Some (part_of found.part)) }
    ensures surroundings { (S : Scope) → IfOk result (λ found.
        let s = around (outermost S) (protocol_term (protocol_of proto.now)) path.now in
        (found.widths ≡ reverse s.widths) × (map condition_of found.conditions ≡ s.conditions)) }
    ensures scope { IfOk result (λ found. found.scope ≡
        interface.now.inputs ++ interface.now.outputs
        ++ hidden_ports (protocol_term (protocol_of proto.now)) path.now) }
    ensures no_place { (result ≡ Err FocusFault.NoPlace) ↔
        (term_at (protocol_term (protocol_of proto.now)) path.now ≡ None) }
{
    let Some(part) = part_at(PartRef::P(proto), path.parts()) else {
        return Err(FocusFault::NoPlace);
    };
    let Ok(boundaries) = boundaries_to(alloc, PartRef::P(proto), path.parts()) else {
        return Err(FocusFault::Memory);
    };
    match with_surroundings(alloc, interface, part, boundaries.as_slice()) {
        Ok(found) => Ok(found),
        Err(_) => Err(FocusFault::Memory),
    }
}
