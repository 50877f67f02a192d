//! Contexts: what stands in their hole, and how they are printed.

ghost use Rattle.std.specs.Prelude.{IfOk};
ghost use Rattle.ipdl_term.specs.Within.{IsContextWithin};
ghost use Rattle.ipdl_term.specs.Views.{context_of};

use crate::building::{body, document};
use crate::printing::is_text;
use ipdl_base::{Name, NoMemory};
use ipdl_forms::Document;
use ipdl_printing::show_ctx;
use ipdl_sig::Sig;
use ipdl_term::{Ctx, Proto, boxed, copy_ctx, nest, plug};
use std::alloc::Global;

// `(nil)` on the right of the context.
fn left(alloc: Global, inner: Result<Ctx, NoMemory>) -> Result<Ctx, NoMemory> {
    Ok(Ctx::Left(boxed(alloc, inner)?, Proto::Nil))
}

// `(nil)` on the left of the context.
fn right(alloc: Global, inner: Result<Ctx, NoMemory>) -> Result<Ctx, NoMemory>
    requires { IfOk inner (λ ctx. IsContextWithin 0 (context_of ctx)) }
    ensures { IfOk result (λ ctx. IsContextWithin 0 (context_of ctx)) }
{
    let inner = boxed(alloc, inner)?;
    Ok(Ctx::Right(Proto::Nil, inner))
}

// The context with a channel of two bits hidden around it.
fn hidden(alloc: Global, channel: &Name, inner: Result<Ctx, NoMemory>) -> Result<Ctx, NoMemory>
    requires { IfOk inner (λ ctx. IsContextWithin 0 (context_of ctx)) }
    ensures { IfOk result (λ ctx. IsContextWithin 0 (context_of ctx)) }
{
    let inner = boxed(alloc, inner)?;
    Ok(Ctx::Hide(channel.copy(alloc)?, 2, inner))
}

// ---- holes that are filled

// The first stands in the holes, and the others are what then is there.
const FILLED: &str =
    "(ipdl 1 (protocol A (inputs) (outputs) (out a (ret #))) (protocol B (inputs) (outputs) (par (out a (ret #)) (nil))) (protocol C (inputs) (outputs) (par (par (nil) (out a (ret #))) (nil))))";

fn plugged(alloc: Global, ctx: &Ctx, proto: &Proto) -> Result<Proto, NoMemory> {
    match plug(alloc, ctx, proto) {
        Ok(whole) => Ok(whole),
        Err(_) => Err(NoMemory),
    }
}

// Whether the context is, with the first protocol in its hole, the one of this index.
fn is_filled(alloc: Global, ctx: &Ctx, document: &Document, index: usize) -> Option<bool> {
    let wanted = body(document, index)?;
    let whole = boxed(alloc, plugged(alloc, ctx, body(document, 0)?)).ok()?;
    Some(*whole == *wanted)
}

// A hole on the left, and in it one on the right.
fn is_nested(alloc: Global, document: &Document) -> Option<bool> {
    let outer = boxed(alloc, left(alloc, Ok(Ctx::Hole))).ok()?;
    if is_filled(alloc, &outer, document, 1) != Some(true) {
        return None;
    }
    let nested = boxed(alloc, nested_in(alloc, &outer)).ok()?;
    is_filled(alloc, &nested, document, 2)
}

// A copy of the context with a hole on the right in its hole.
fn nested_in(alloc: Global, outer: &Ctx) -> Result<Ctx, NoMemory> {
    let inner = boxed(alloc, right(alloc, Ok(Ctx::Hole)))?;
    let nested = boxed(alloc, nest(alloc, outer, &inner))?;
    copy_ctx(alloc, &nested)
}

#[test]
fn plugs_and_nests(rt: HostRuntime) {
    let alloc = rt.alloc();
    let read = document(alloc, FILLED);
    assert!(rt;
        read.as_ref()
            .and_then(|document| is_nested(alloc, document))
            == Some(true)
    );
}

// ---- printing

// (par (nil) (new ((a 2) (b 2)) (par (nil) (hole))))
fn around(alloc: Global, first: &Name, second: &Name) -> Result<Ctx, NoMemory>
    ensures { IfOk result (λ ctx. IsContextWithin 0 (context_of ctx)) }
{
    let inner = right(alloc, Ok(Ctx::Hole));
    let inner = hidden(alloc, second, inner);
    let inner = hidden(alloc, first, inner);
    right(alloc, inner)
}

fn shown(alloc: Global, first: &Name, second: &Name) -> Result<Vec<u8>, NoMemory> {
    let ctx = boxed(alloc, around(alloc, first, second))?;
    show_ctx(alloc, &Sig::empty(alloc), &ctx)
}

fn is_shown(alloc: Global, text: &str) -> Option<bool> {
    let first = Name::read(alloc, "a").ok()?;
    let second = Name::read(alloc, "b").ok()?;
    Some(is_text(shown(alloc, &first, &second), text))
}

#[test]
fn shows_contexts(rt: HostRuntime) {
    let want = "(par (nil) (new ((a 2) (b 2)) (par (nil) (hole))))";
    assert!(rt; is_shown(rt.alloc(), want) == Some(true));
}
