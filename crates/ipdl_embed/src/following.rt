//! Pairs that are followed by a renaming, where channels may be hidden.

ghost use Rattle.std.specs.Prelude.{◌≡◌, ◌||◌, ◌++◌, IfOk, OnOk};
ghost use Rattle.ipdl_term.specs.Channels.{has};
ghost use Rattle.ipdl_term.specs.Renaming.{hidden_around, renaming_of};
ghost use Rattle.ipdl_term.specs.Terms.{Channel};
ghost use Rattle.ipdl_term.specs.Views.{context_of, protocol_of};
ghost use Rattle.ipdl_embed.specs.Following.{followed, hidden_on_way, names_of};
ghost use Rattle.ipdl_embed.specs.Tables.{holds, keeping_all};

use crate::embedding::renamed_name;
use crate::names::enter;
use crate::renaming::Renaming;
use crate::shared::SharedPairs;
use ipdl_base::{Name, NoMemory, Path};
use ipdl_term::{Ctx, Proto};
use std::alloc::Global;
use std::collections::HashSet;

// Adds the names of the `new`s around the hole.
fn push_around_hole<'a>(names: &mut Vec<&'a Name>, ctx: &'a Ctx) -> Result<(), NoMemory>
    ensures { OnOk result (names_of names.new.items
        ≡ names_of names.old.items ++ hidden_around (context_of ctx.now)) }
{
    match ctx {
        Ctx::Hole => Ok(()),
        Ctx::Left(inner, _) => push_around_hole(names, inner),
        Ctx::Right(_, inner) => push_around_hole(names, inner),
        Ctx::Hide(c, _, inner) => {
            names.push(c)?;
            push_around_hole(names, inner)
        }
    }
}

/// The names of the `new`s around the hole of the context, the outermost first.
pub fn hidden_around_hole<'a>(alloc: Global, ctx: &'a Ctx) -> Result<Vec<&'a Name>, NoMemory>
    ensures { IfOk result (λ names.
        names_of names.items ≡ hidden_around (context_of ctx.now)) }
{
    let mut names = Vec::new(alloc);
    push_around_hole(&mut names, ctx)?;
    Ok(names)
}

// Adds the names of the `new`s on the way to the place.
fn push_on_way<'a>(
    names: &mut Vec<&'a Name>,
    whole: &'a Proto,
    place: &[u32],
) -> Result<(), NoMemory>
    ensures { OnOk result (names_of names.new.items
        ≡ names_of names.old.items ++ hidden_on_way (protocol_of whole.now) place.now) }
{
    let Some((number, rest)) = place.split_first() else {
        return Ok(());
    };
    match whole {
        Proto::Nil | Proto::Out(_, _) => Ok(()),
        Proto::Par(p, q) => match *number {
            0 => push_on_way(names, p, rest),
            1 => push_on_way(names, q, rest),
            _ => Ok(()),
        },
        Proto::Hide(c, _, p) => match *number {
            0 => {
                names.push(c)?;
                push_on_way(names, p, rest)
            }
            _ => Ok(()),
        },
    }
}

/// The names of the `new`s on the way to the place in the protocol, the outermost first. Where the
/// place leaves the protocol, or goes into a reaction, they are those up to there.
pub fn hidden_around_place<'a>(
    alloc: Global,
    whole: &'a Proto,
    path: &Path,
) -> Result<Vec<&'a Name>, NoMemory>
    ensures { IfOk result (λ names.
        names_of names.items ≡ hidden_on_way (protocol_of whole.now) path.now) }
{
    let mut names = Vec::new(alloc);
    push_on_way(&mut names, whole, path.parts())?;
    Ok(names)
}

// Adds the names to the set.
fn enter_all<'a>(set: &mut HashSet<&'a Name>, names: &[&'a Name]) -> Result<(), NoMemory>
    ensures { OnOk result ((c : Channel) →
        holds set.new c ≡ (has (names_of names.now) c || holds set.old c)) }
{
    for name in names {
        enter(set, *name)?;
    }
    Ok(())
}

// The pair, whose new name is renamed.
fn followed_pair<'a>(
    alloc: Global,
    renaming: &Renaming,
    hidden: &HashSet<&'a Name>,
    pair: &(Name, Name),
) -> Result<(Name, Name), NoMemory>
    ensures { IfOk result (λ made. made ≡ (
      pair.now.0,
      keeping_all (holds hidden.now) (renaming_of renaming.now) pair.now.1,
    )) }
{
    let name = renamed_name(alloc, renaming, hidden, &pair.1)?;
    Ok((pair.0.copy(alloc)?, name))
}

/// The inner pairs, followed by the renaming below `new`s of the hidden names: a new name that is
/// hidden stays, and any other takes its new name of the renaming.
pub fn follow_below(
    alloc: Global,
    renaming: &Renaming,
    hidden: &[&Name],
    inner: &[(Name, Name)],
) -> Result<SharedPairs, NoMemory>
    ensures { IfOk result (λ made.
        made ≡ followed (names_of hidden.now) renaming.now inner.now) }
{
    let mut set = HashSet::new(alloc);
    enter_all(&mut set, hidden)?;
    let mut made = Vec::new(alloc);
    for pair in inner {
        made.push(followed_pair(alloc, renaming, &set, pair)?)?;
    }
    SharedPairs::from_vec(made)
}

/// The inner pairs, followed by the renaming at the hole of the context: a new name that a `new`
/// hides above the hole stays, and any other takes its new name of the renaming.
pub fn follow(
    alloc: Global,
    renaming: &Renaming,
    ctx: &Ctx,
    inner: &[(Name, Name)],
) -> Result<SharedPairs, NoMemory>
    ensures { IfOk result (λ made.
        made ≡ followed (hidden_around (context_of ctx.now)) renaming.now inner.now) }
{
    let hidden = hidden_around_hole(alloc, ctx)?;
    follow_below(alloc, renaming, hidden.as_slice(), inner)
}
