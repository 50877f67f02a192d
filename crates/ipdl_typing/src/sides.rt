//! Two interfaces, compared by the names and widths of their ports.

ghost use Rattle.std.specs.HashSet.{contains_by};
ghost use Rattle.std.specs.Prelude.{◌≡◌, ◌&&◌, [], IfErr, IfOk, OnOk, bytes_eq, nat_eq};
ghost use Rattle.ipdl_typing.specs.Answers.{TellsFirstFailure, AnswersChecks};
ghost use Rattle.ipdl_typing.specs.Checks.{has_port, lacking, side_failures};
ghost use Rattle.ipdl_typing.specs.Interfaces.{SamePorts};

use crate::fault::{IllCause, TypeFault};
use crate::place::Place;
use ipdl_base::{Name, NoMemory};
use ipdl_term::{Interface, Port};
use std::alloc::Global;
use std::collections::HashSet;

// The ports as a set of names with widths, where a look-up takes about the same time however many
// they are. The names stay where they are.
fn keys_of<'a>(alloc: Global, ports: &'a [Port]) -> Result<HashSet<(&'a Name, u8)>, NoMemory>
    ensures { IfOk result (λ keys. (port : Port) →
        contains_by (λ key. bytes_eq port.name key.0.now && nat_eq port.width key.1) keys
        ≡ has_port ports.now port) }
{
    let mut keys = HashSet::new(alloc);
    for port in ports {
        keys.insert((&port.name, port.width))?;
    }
    Ok(keys)
}

// Checks that the second list has each port of the first. Lists that are written alike are not
// looked up.
fn check_within<'a>(alloc: Global, ports: &'a [Port], others: &'a [Port]) -> Result<(), TypeFault>
    ensures { AnswersChecks result (lacking ports.now others.now) }
{
    if ports == others {
        return Ok(());
    }
    let keys = keys_of(alloc, others)?;
    for port in ports {
        if !keys.contains(&(&port.name, port.width)) {
            let name = port.name.copy(alloc)?;
            return Err(Place::Root.fault(alloc, IllCause::Interface { name }));
        }
    }
    Ok(())
}

/// Checks that two interfaces have the same inputs and the same outputs, in name and width,
/// whatever their order. The fault names the first port of the left that the right lacks, its
/// inputs before its outputs, and else the first of the right that the left lacks. Its place is
/// the root.
pub fn check_sides(alloc: Global, left: &Interface, right: &Interface) -> Result<(), TypeFault>
    ensures inputs { OnOk result (SamePorts left.now.inputs right.now.inputs) }
    ensures outputs { OnOk result (SamePorts left.now.outputs right.now.outputs) }
    ensures clean { OnOk result (side_failures left.now right.now ≡ []) }
    ensures first { IfErr result (λ fault. TellsFirstFailure fault (side_failures left.now right.now)) }
{
    check_within(alloc, left.inputs.as_slice(), right.inputs.as_slice())?;
    check_within(alloc, left.outputs.as_slice(), right.outputs.as_slice())?;
    check_within(alloc, right.inputs.as_slice(), left.inputs.as_slice())?;
    check_within(alloc, right.outputs.as_slice(), left.outputs.as_slice())
}
