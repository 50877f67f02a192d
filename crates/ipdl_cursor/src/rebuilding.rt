//! The protocol with another part at a place.

ghost use Rattle.std.specs.Prelude.{◌≡◌, ◌↔◌, ◌<◌, None, IfOk, IsTrue, IsSomeAnd};
ghost use Rattle.ipdl_term.specs.Places.{AreOfOneKind, term_at, term_with};
ghost use Rattle.ipdl_term.specs.Sizes.{most_nodes, term_nodes};
ghost use Rattle.ipdl_term.specs.Terms.{protocol_term};
ghost use Rattle.ipdl_term.specs.Views.{protocol_of, term_of};
ghost use Rattle.ipdl_cursor.specs.Views.{part_of};

use crate::counting::proto_nodes_with;
use crate::part_ref::{PartRef, part_at};
use crate::replacing::proto_with;
use ipdl_base::{Limit, NoMemory, Path};
use ipdl_term::{Part, Proto, boxed, copy_part};
use std::alloc::Global;

/// Why no protocol or context is answered.
#[derive(Clone, Copy, Debug, PartialEq, Eq)]
pub enum RebuildFault {
    /// The path leaves the protocol.
    NoPlace,
    /// What stands there is of another kind.
    Kind,
    /// The protocol would have more than 4,096 nodes.
    Nodes,
    /// Memory ran out.
    Memory,
}

// Whether the part is of the kind of the new one.
fn is_of_kind(old: PartRef, new: &Part) -> bool
    ensures { IsTrue result ↔ AreOfOneKind (part_of old.entry) (term_of new.now) }
{
    match old {
        PartRef::P(_) => matches!(new, Part::P(_)),
        PartRef::R(_) => matches!(new, Part::R(_)),
        PartRef::E(_) => matches!(new, Part::E(_)),
    }
}

/// The protocol with the part at the place. What stands beside the way is copied, and the part is
/// moved. A caller shows that one of its kind stands there.
#[tactic(auto, using(crate::proofs::PartKinds::part_kinds))]
pub fn replaced(
    alloc: Global,
    proto: &Proto,
    path: &Path,
    part: Box<Part>,
) -> Result<Proto, NoMemory>
    requires { IsSomeAnd (term_at (protocol_term (protocol_of proto.now)) path.now)
        (λ old. AreOfOneKind old (term_of part.value)) }
    ensures { IfOk result (λ whole. protocol_term (protocol_of whole) ≡
        term_with (protocol_term (protocol_of proto.now)) path.now (term_of part.value)) }
{
    proto_with(alloc, proto, path.parts(), part)
}

// The protocol with a copy of the part at the place.
fn replaced_by_copy(
    alloc: Global,
    proto: &Proto,
    path: &Path,
    part: &Part,
) -> Result<Proto, NoMemory>
    requires { IsSomeAnd (term_at (protocol_term (protocol_of proto.now)) path.now)
        (λ old. AreOfOneKind old (term_of part.now)) }
    ensures { IfOk result (λ whole. protocol_term (protocol_of whole) ≡
        term_with (protocol_term (protocol_of proto.now)) path.now (term_of part.now)) }
{
    let part = boxed(alloc, copy_part(alloc, part))?;
    replaced(alloc, proto, path, part)
}

// Whether the protocol with the part at the place has more than 4,096 nodes.
#[tactic(auto, using(crate::proofs::PartKinds::part_kinds))]
fn is_too_large(proto: &Proto, path: &Path, part: &Part) -> bool
    requires { IsSomeAnd (term_at (protocol_term (protocol_of proto.now)) path.now)
        (λ old. AreOfOneKind old (term_of part.now)) }
    ensures { IsTrue result ↔ (most_nodes < term_nodes
        (term_with (protocol_term (protocol_of proto.now)) path.now (term_of part.now))) }
{
    proto_nodes_with(proto, path.parts(), part) > Limit::Nodes.number()
}

/// The protocol with a copy of the part at the place. `Nodes` exactly where that is too large,
/// which is counted before anything is copied.
pub fn rebuild(
    alloc: Global,
    proto: &Proto,
    path: &Path,
    part: &Part,
) -> Result<Proto, RebuildFault>
    ensures value { IfOk result (λ whole. protocol_term (protocol_of whole) ≡
        term_with (protocol_term (protocol_of proto.now)) path.now (term_of part.now)) }
    ensures no_place { (result ≡ Err RebuildFault.NoPlace) ↔
        (term_at (protocol_term (protocol_of proto.now)) path.now ≡ None) }
    ensures kind { (result ≡ Err RebuildFault.Kind) ↔
        IsSomeAnd (term_at (protocol_term (protocol_of proto.now)) path.now)
        (λ old. ¬ AreOfOneKind old (term_of part.now)) }
    ensures nodes { (result ≡ Err RebuildFault.Nodes) ↔
        (IsSomeAnd (term_at (protocol_term (protocol_of proto.now)) path.now)
        (λ old. AreOfOneKind old (term_of part.now)) × (most_nodes < term_nodes
        (term_with (protocol_term (protocol_of proto.now)) path.now (term_of part.now)))) }
{
    let Some(old) = part_at(PartRef::P(proto), path.parts()) else {
        return Err(RebuildFault::NoPlace);
    };
    if !is_of_kind(old, part) {
        return Err(RebuildFault::Kind);
    }
    if is_too_large(proto, path, part) {
        return Err(RebuildFault::Nodes);
    }
    match replaced_by_copy(alloc, proto, path, part) {
        Ok(whole) => Ok(whole),
        Err(_) => Err(RebuildFault::Memory),
    }
}
