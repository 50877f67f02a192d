//! Contexts with a protocol or another context in their hole.

ghost use Rattle.std.specs.Prelude.{◌≡◌, ◌↔◌, ◌<◌, IfOk};
ghost use Rattle.ipdl_term.specs.Views.{protocol_of, context_of};
ghost use Rattle.ipdl_term.specs.Sizes.{saturated, most_nodes, protocol_nodes};
ghost use Rattle.ipdl_term.specs.Contexts.{plugged, nested};

use crate::boxing::boxed;
use crate::context::Ctx;
use crate::copy::{copy_ctx, copy_proto};
use crate::protocol::Proto;
use crate::put::TermFault;
use crate::sizes::proto_nodes;
use ipdl_base::{Limit, NoMemory};
use std::alloc::Global;

// The nodes of the context with the protocol in its hole.
fn plugged_nodes(ctx: &Ctx, proto: &Proto, nodes: u64) -> u64
    requires { nodes ≡ saturated (protocol_nodes (protocol_of proto.now)) }
    ensures { result ≡ saturated (protocol_nodes (plugged (context_of ctx.now) (protocol_of proto.now))) }
{
    match ctx {
        Ctx::Hole => nodes,
        Ctx::Left(inner, other) | Ctx::Right(other, inner) => plugged_nodes(inner, proto, nodes)
            .saturating_add(proto_nodes(other))
            .saturating_add(1),
        Ctx::Hide(_, _, inner) => plugged_nodes(inner, proto, nodes).saturating_add(1),
    }
}

// The context with the protocol in its hole.
fn plugged_proto(alloc: Global, ctx: &Ctx, proto: &Proto) -> Result<Proto, NoMemory>
    ensures { IfOk result (λ whole. protocol_of whole ≡ plugged (context_of ctx.now) (protocol_of proto.now)) }
{
    Ok(match ctx {
        Ctx::Hole => copy_proto(alloc, proto)?,
        Ctx::Left(inner, other) => Proto::Par(
            boxed(alloc, plugged_proto(alloc, inner, proto))?,
            boxed(alloc, copy_proto(alloc, other))?,
        ),
        Ctx::Right(other, inner) => Proto::Par(
            boxed(alloc, copy_proto(alloc, other))?,
            boxed(alloc, plugged_proto(alloc, inner, proto))?,
        ),
        Ctx::Hide(c, w, inner) => Proto::Hide(
            c.copy(alloc)?,
            *w,
            boxed(alloc, plugged_proto(alloc, inner, proto))?,
        ),
    })
}

/// The context with the protocol in its hole. `Nodes` exactly where that is too large, which is
/// counted before anything is made.
pub fn plug(alloc: Global, ctx: &Ctx, proto: &Proto) -> Result<Proto, TermFault>
    ensures value { IfOk result (λ whole. protocol_of whole ≡ plugged (context_of ctx.now) (protocol_of proto.now)) }
    ensures nodes { (result ≡ Err TermFault.Nodes) ↔ (most_nodes < protocol_nodes (plugged (context_of ctx.now) (protocol_of proto.now))) }
{
    if plugged_nodes(ctx, proto, proto_nodes(proto)) > Limit::Nodes.number() {
        return Err(TermFault::Nodes);
    }
    match plugged_proto(alloc, ctx, proto) {
        Ok(whole) => Ok(whole),
        Err(_) => Err(TermFault::Memory),
    }
}

/// The outer context with the inner one in its hole.
pub fn nest(alloc: Global, outer: &Ctx, inner: &Ctx) -> Result<Ctx, NoMemory>
    ensures { IfOk result (λ whole. context_of whole ≡ nested (context_of outer.now) (context_of inner.now)) }
{
    Ok(match outer {
        Ctx::Hole => copy_ctx(alloc, inner)?,
        Ctx::Left(next, other) => Ctx::Left(
            boxed(alloc, nest(alloc, next, inner))?,
            copy_proto(alloc, other)?,
        ),
        Ctx::Right(other, next) => {
            let next = boxed(alloc, nest(alloc, next, inner))?;
            Ctx::Right(copy_proto(alloc, other)?, next)
        }
        Ctx::Hide(c, w, next) => Ctx::Hide(
            c.copy(alloc)?,
            *w,
            boxed(alloc, nest(alloc, next, inner))?,
        ),
    })
}
