//! Contexts with other names of their free channels.

ghost use Rattle.std.specs.Map.{values_of};
ghost use Rattle.std.specs.Option.{option_copied};
ghost use Rattle.std.specs.Prelude.{◌≡◌, slice_get, IfErr, IfOk, OnOk};
ghost use Rattle.ipdl_term.specs.Channels.{AreDisjoint};
ghost use Rattle.ipdl_term.specs.Renaming.{renamed_context, renaming_of};
ghost use Rattle.ipdl_term.specs.Views.{context_of};
ghost use Rattle.ipdl_embed.specs.Captures.{TellsCapture, captured, hidden_in_context};
ghost use Rattle.ipdl_embed.specs.Tables.{holds, keeping_all};

use crate::embedding::{first_captured, renamed_proto};
use crate::fault::EmbedFault;
use crate::names::{enter, leave};
use crate::renaming::Renaming;
use ipdl_base::{Name, NoMemory};
use ipdl_term::{Ctx, boxed};
use std::alloc::Global;
use std::collections::HashSet;

// The first `new` in preorder whose name is a new name, around the hole and in the parts beside it.
fn first_captured_in<'a>(renaming: &Renaming, ctx: &'a Ctx) -> Option<&'a Name>
    ensures { option_copied result
        ≡ slice_get (captured renaming.now (hidden_in_context (context_of ctx.now))) 0 }
{
    match ctx {
        Ctx::Hole => None,
        Ctx::Left(inner, q) => match first_captured_in(renaming, inner) {
            Some(name) => Some(name),
            None => first_captured(renaming, q),
        },
        Ctx::Right(p, inner) => match first_captured(renaming, p) {
            Some(name) => Some(name),
            None => first_captured_in(renaming, inner),
        },
        Ctx::Hide(c, _, inner) => {
            if renaming.is_new_name(c) {
                Some(c)
            } else {
                first_captured_in(renaming, inner)
            }
        }
    }
}

// The renamed context in a box. Made in a call of its own, it takes no room in the frames of the
// walk.
#[cycle(rename_ctx)]
#[inline(never)]
fn renamed_ctx_box<'a>(
    alloc: Global,
    renaming: &Renaming,
    hidden: &mut HashSet<&'a Name>,
    ctx: &'a Ctx,
) -> Result<Box<Ctx>, NoMemory>
    ensures value { IfOk result (λ held. context_of held.value
        ≡ renamed_context (keeping_all (holds hidden.old) (renaming_of renaming.now))
        (context_of ctx.now)) }
    ensures hidden { OnOk result (holds hidden.new ≡ holds hidden.old) }
{
    boxed(alloc, renamed_ctx(alloc, renaming, hidden, ctx))
}

// The renamed context. The set has the names of the `new`s around it, and has the same ones
// afterwards.
#[cycle(rename_ctx)]
fn renamed_ctx<'a>(
    alloc: Global,
    renaming: &Renaming,
    hidden: &mut HashSet<&'a Name>,
    ctx: &'a Ctx,
) -> Result<Ctx, NoMemory>
    ensures value { IfOk result (λ made. context_of made
        ≡ renamed_context (keeping_all (holds hidden.old) (renaming_of renaming.now))
        (context_of ctx.now)) }
    ensures hidden { OnOk result (holds hidden.new ≡ holds hidden.old) }
{
    match ctx {
        Ctx::Hole => Ok(Ctx::Hole),
        Ctx::Left(inner, q) => {
            let inner = renamed_ctx_box(alloc, renaming, hidden, inner)?;
            Ok(Ctx::Left(inner, renamed_proto(alloc, renaming, hidden, q)?))
        }
        Ctx::Right(p, inner) => {
            let inner = renamed_ctx_box(alloc, renaming, hidden, inner)?;
            Ok(Ctx::Right(renamed_proto(alloc, renaming, hidden, p)?, inner))
        }
        Ctx::Hide(c, w, inner) => {
            let added = enter(hidden, c)?;
            let inner = renamed_ctx_box(alloc, renaming, hidden, inner)?;
            leave(hidden, c, added);
            Ok(Ctx::Hide(c.copy(alloc)?, *w, inner))
        }
    }
}

/// The context with its free channels renamed. Below a `new c` the channel c keeps its name.
/// `Capture` tells the first `new` in preorder whose name is a new name, around the hole or in a
/// part beside it.
pub fn embed_ctx(alloc: Global, renaming: &Renaming, ctx: &Ctx) -> Result<Ctx, EmbedFault>
    ensures value { IfOk result (λ made.
        context_of made ≡ renamed_context (renaming_of renaming.now) (context_of ctx.now)) }
    ensures free { OnOk result
        (AreDisjoint (values_of renaming.now) (hidden_in_context (context_of ctx.now))) }
    ensures fault { IfErr result
        (TellsCapture renaming.now (hidden_in_context (context_of ctx.now))) }
{
    if let Some(name) = first_captured_in(renaming, ctx) {
        return Err(EmbedFault::Capture {
            name: name.copy(alloc)?,
        });
    }
    let mut hidden = HashSet::new(alloc);
    Ok(renamed_ctx(alloc, renaming, &mut hidden, ctx)?)
}
