//! The context around a place.

ghost use Rattle.std.specs.Prelude.{◌≡◌, ◌↔◌, Some, None, IfOk, IsOkAnd, IsSome};
ghost use Rattle.ipdl_term.specs.Contexts.{plugged};
ghost use Rattle.ipdl_term.specs.Places.{context_at, term_at};
ghost use Rattle.ipdl_term.specs.Terms.{Protocol, in_left, in_right, in_hiding, protocol_term};
ghost use Rattle.ipdl_term.specs.Views.{protocol_of, context_of};

use crate::part_ref::{PartRef, part_at};
use crate::rebuilding::RebuildFault;
use ipdl_base::{Name, NoMemory, Path};
use ipdl_term::{Ctx, Proto, boxed, copy_proto};
use std::alloc::Global;

// The context of a left part, where the inner one was made. This and the next two are kept out of
// the frames of the walk, of which there is one for each level.
#[inline(never)]
fn left(alloc: Global, made: Result<Ctx, NoMemory>, other: &Proto) -> Result<Ctx, NoMemory>
    ensures { IfOk result (λ ctx. IsOkAnd made (λ inner.
        context_of ctx ≡ in_left (context_of inner) (protocol_of other.now))) }
{
    let inner = boxed(alloc, made)?;
    Ok(Ctx::Left(inner, copy_proto(alloc, other)?))
}

// The same of a right part.
#[inline(never)]
fn right(alloc: Global, other: &Proto, made: Result<Ctx, NoMemory>) -> Result<Ctx, NoMemory>
    ensures { IfOk result (λ ctx. IsOkAnd made (λ inner.
        context_of ctx ≡ in_right (protocol_of other.now) (context_of inner))) }
{
    let inner = boxed(alloc, made)?;
    Ok(Ctx::Right(copy_proto(alloc, other)?, inner))
}

// The same below a hidden channel.
#[inline(never)]
fn below(
    alloc: Global,
    channel: &Name,
    width: u8,
    made: Result<Ctx, NoMemory>,
) -> Result<Ctx, NoMemory>
    ensures { IfOk result (λ ctx. IsOkAnd made (λ inner.
        context_of ctx ≡ in_hiding channel.now width (context_of inner))) }
{
    let inner = boxed(alloc, made)?;
    Ok(Ctx::Hide(channel.copy(alloc)?, width, inner))
}

// The context around the place, on the way to which there are protocols alone.
#[tactic(auto, using(crate::proofs::ContextPlaces::context_steps))]
fn context_in(alloc: Global, proto: &Proto, place: &[u32]) -> Result<Ctx, NoMemory>
    requires { IsSome (context_at (protocol_of proto.now) place.now) }
    ensures { IfOk result (λ ctx.
        context_at (protocol_of proto.now) place.now ≡ Some (context_of ctx)) }
{
    let Some((number, rest)) = place.split_first() else {
        return Ok(Ctx::Hole);
    };
    match proto {
        Proto::Par(p, q) => match *number {
            0 => left(alloc, context_in(alloc, p, rest), q),
            1 => right(alloc, p, context_in(alloc, q, rest)),
            _ => unreachable!(),
        },
        Proto::Hide(c, w, p) => match *number {
            0 => below(alloc, c, *w, context_in(alloc, p, rest)),
            _ => unreachable!(),
        },
        Proto::Nil | Proto::Out(_, _) => unreachable!(),
    }
}

/// What is around the place of a protocol, in memory of its own.
#[tactic(auto, using(crate::proofs::ContextPlaces::contexts_at))]
pub fn context(alloc: Global, proto: &Proto, path: &Path) -> Result<Ctx, RebuildFault>
    ensures value { IfOk result (λ ctx.
        context_at (protocol_of proto.now) path.now ≡ Some (context_of ctx)) }
    ensures plugged { (q : Protocol) →
        term_at (protocol_term (protocol_of proto.now)) path.now ≡ Some (protocol_term q) →
        IfOk result (λ ctx. plugged (context_of ctx) q ≡ protocol_of proto.now) }
    ensures no_place { (result ≡ Err RebuildFault.NoPlace) ↔
        (term_at (protocol_term (protocol_of proto.now)) path.now ≡ None) }
    ensures kind { (result ≡ Err RebuildFault.Kind) ↔
        (IsSome (term_at (protocol_term (protocol_of proto.now)) path.now)
        × (context_at (protocol_of proto.now) path.now ≡ None)) }
    ensures not_nodes { ¬ (result ≡ Err RebuildFault.Nodes) }
{
    match part_at(PartRef::P(proto), path.parts()) {
        None => Err(RebuildFault::NoPlace),
        Some(PartRef::R(_) | PartRef::E(_)) => Err(RebuildFault::Kind),
        Some(PartRef::P(_)) => match context_in(alloc, proto, path.parts()) {
            Ok(ctx) => Ok(ctx),
            Err(_) => Err(RebuildFault::Memory),
        },
    }
}
