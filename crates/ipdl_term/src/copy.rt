//! Copies of terms, in memory of their own.

ghost use Rattle.std.specs.Prelude.{◌≡◌, IfOk};
ghost use Rattle.ipdl_term.specs.Views.{expression_of, reaction_of, protocol_of, context_of, term_of};

use crate::boxing::boxed;
use crate::change::{Change, changed_expr, changed_proto, changed_react};
use crate::context::Ctx;
use crate::expression::Expr;
use crate::part::Part;
use crate::protocol::Proto;
use crate::reaction::React;
use ipdl_base::NoMemory;
use std::alloc::Global;

/// The same expression in memory of its own.
#[tactic(auto, using(crate::proofs::ChangeFits::keep_fits, crate::proofs::ChangeLemmas::kept))]
pub fn copy_expr(alloc: Global, term: &Expr) -> Result<Expr, NoMemory>
    ensures { IfOk result (λ copy. expression_of copy ≡ expression_of term.now) }
{
    changed_expr(alloc, &Change::Keep, 0, term)
}

/// The same reaction in memory of its own.
#[tactic(auto, using(crate::proofs::ChangeFits::keep_fits, crate::proofs::ChangeLemmas::kept))]
pub fn copy_react(alloc: Global, term: &React) -> Result<React, NoMemory>
    ensures { IfOk result (λ copy. reaction_of copy ≡ reaction_of term.now) }
{
    changed_react(alloc, &Change::Keep, 0, term)
}

/// The same protocol in memory of its own.
#[tactic(auto, using(crate::proofs::ChangeFits::keep_fits, crate::proofs::ChangeLemmas::kept))]
pub fn copy_proto(alloc: Global, proto: &Proto) -> Result<Proto, NoMemory>
    ensures { IfOk result (λ copy. protocol_of copy ≡ protocol_of proto.now) }
{
    changed_proto(alloc, &Change::Keep, 0, proto)
}

/// The same context in memory of its own.
pub fn copy_ctx(alloc: Global, ctx: &Ctx) -> Result<Ctx, NoMemory>
    ensures { IfOk result (λ copy. context_of copy ≡ context_of ctx.now) }
{
    Ok(match ctx {
        Ctx::Hole => Ctx::Hole,
        Ctx::Left(inner, q) => Ctx::Left(
            boxed(alloc, copy_ctx(alloc, inner))?,
            copy_proto(alloc, q)?,
        ),
        Ctx::Right(p, inner) => {
            let inner = boxed(alloc, copy_ctx(alloc, inner))?;
            Ctx::Right(copy_proto(alloc, p)?, inner)
        }
        Ctx::Hide(c, w, inner) => Ctx::Hide(
            c.copy(alloc)?,
            *w,
            boxed(alloc, copy_ctx(alloc, inner))?,
        ),
    })
}

/// The same term in memory of its own.
pub fn copy_part(alloc: Global, part: &Part) -> Result<Part, NoMemory>
    ensures { IfOk result (λ copy. term_of copy ≡ term_of part.now) }
{
    Ok(match part {
        Part::P(p) => Part::P(copy_proto(alloc, p)?),
        Part::R(r) => Part::R(copy_react(alloc, r)?),
        Part::E(e) => Part::E(copy_expr(alloc, e)?),
    })
}
