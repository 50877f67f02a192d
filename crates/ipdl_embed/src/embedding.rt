//! Protocols with other names of their free channels.

ghost use Rattle.std.specs.Map.{values_of};
ghost use Rattle.std.specs.Option.{option_copied};
ghost use Rattle.std.specs.Prelude.{◌≡◌, slice_get, IfErr, IfOk, OnOk};
ghost use Rattle.ipdl_term.specs.Channels.{AreDisjoint};
ghost use Rattle.ipdl_term.specs.Renaming.{hidden_channels, renamed, renamed_reaction, renaming_of};
ghost use Rattle.ipdl_term.specs.Terms.{assignment};
ghost use Rattle.ipdl_term.specs.Views.{protocol_of, reaction_of};
ghost use Rattle.ipdl_embed.specs.Captures.{TellsCapture, captured};
ghost use Rattle.ipdl_embed.specs.Instances.{IsInstance};
ghost use Rattle.ipdl_embed.specs.Tables.{holds, keeping_all};

use crate::fault::EmbedFault;
use crate::names::{enter, leave};
use crate::renaming::Renaming;
use ipdl_base::{Name, NoMemory};
use ipdl_term::{Proto, React, boxed, copy_expr};
use std::alloc::Global;
use std::collections::HashSet;

// The first `new` in preorder whose name is a new name.
pub(crate) fn first_captured<'a>(renaming: &Renaming, proto: &'a Proto) -> Option<&'a Name>
    ensures { option_copied result
        ≡ slice_get (captured renaming.now (hidden_channels (protocol_of proto.now))) 0 }
{
    match proto {
        Proto::Nil | Proto::Out(_, _) => None,
        Proto::Par(p, q) => match first_captured(renaming, p) {
            Some(name) => Some(name),
            None => first_captured(renaming, q),
        },
        Proto::Hide(c, _, p) => {
            if renaming.is_new_name(c) {
                Some(c)
            } else {
                first_captured(renaming, p)
            }
        }
    }
}

// The new name of a channel, below `new`s of the hidden names.
pub(crate) fn renamed_name<'a>(
    alloc: Global,
    renaming: &Renaming,
    hidden: &HashSet<&'a Name>,
    channel: &Name,
) -> Result<Name, NoMemory>
    ensures { IfOk result (λ name.
        name ≡ keeping_all (holds hidden.now) (renaming_of renaming.now) channel.now) }
{
    if hidden.contains(&channel) {
        return channel.copy(alloc);
    }
    match renaming.new_name(channel) {
        Some(name) => name.copy(alloc),
        None => channel.copy(alloc),
    }
}

// The renamed reaction in a box. Made in a call of its own, it takes no room in the frames of the
// walk.
#[cycle(rename_react)]
#[inline(never)]
fn renamed_react_box<'a>(
    alloc: Global,
    renaming: &Renaming,
    hidden: &HashSet<&'a Name>,
    term: &React,
) -> Result<Box<React>, NoMemory>
    ensures { IfOk result (λ held. reaction_of held.value
        ≡ renamed_reaction (keeping_all (holds hidden.now) (renaming_of renaming.now))
        (reaction_of term.now)) }
{
    boxed(alloc, renamed_react(alloc, renaming, hidden, term))
}

// The renamed reaction.
#[cycle(rename_react)]
fn renamed_react<'a>(
    alloc: Global,
    renaming: &Renaming,
    hidden: &HashSet<&'a Name>,
    term: &React,
) -> Result<React, NoMemory>
    ensures { IfOk result (λ r. reaction_of r
        ≡ renamed_reaction (keeping_all (holds hidden.now) (renaming_of renaming.now))
        (reaction_of term.now)) }
{
    Ok(match term {
        React::Ret(e) => React::Ret(copy_expr(alloc, e)?),
        React::Flip(w) => React::Flip(*w),
        React::Read(c) => React::Read(renamed_name(alloc, renaming, hidden, c)?),
        React::Cond(e, r, s) => {
            let (one, other) = (
                renamed_react_box(alloc, renaming, hidden, r)?,
                renamed_react_box(alloc, renaming, hidden, s)?,
            );
            React::Cond(copy_expr(alloc, e)?, one, other)
        }
        React::Bind(w, r, s) => React::Bind(
            *w,
            renamed_react_box(alloc, renaming, hidden, r)?,
            renamed_react_box(alloc, renaming, hidden, s)?,
        ),
    })
}

// The renamed assignment.
#[inline(never)]
fn renamed_out<'a>(
    alloc: Global,
    renaming: &Renaming,
    hidden: &HashSet<&'a Name>,
    channel: &Name,
    term: &React,
) -> Result<Proto, NoMemory>
    ensures { IfOk result (λ p. protocol_of p
        ≡ renamed (keeping_all (holds hidden.now) (renaming_of renaming.now))
        (assignment channel.now (reaction_of term.now))) }
{
    let term = renamed_react(alloc, renaming, hidden, term)?;
    Ok(Proto::Out(renamed_name(alloc, renaming, hidden, channel)?, term))
}

// The renamed protocol in a box, likewise.
#[cycle(rename_proto)]
#[inline(never)]
fn renamed_proto_box<'a>(
    alloc: Global,
    renaming: &Renaming,
    hidden: &mut HashSet<&'a Name>,
    proto: &'a Proto,
) -> Result<Box<Proto>, NoMemory>
    ensures value { IfOk result (λ held. protocol_of held.value
        ≡ renamed (keeping_all (holds hidden.old) (renaming_of renaming.now))
        (protocol_of proto.now)) }
    ensures hidden { OnOk result (holds hidden.new ≡ holds hidden.old) }
{
    boxed(alloc, renamed_proto(alloc, renaming, hidden, proto))
}

// The renamed protocol. The set has the names of the `new`s around it, and has the same ones
// afterwards.
#[cycle(rename_proto)]
pub(crate) fn renamed_proto<'a>(
    alloc: Global,
    renaming: &Renaming,
    hidden: &mut HashSet<&'a Name>,
    proto: &'a Proto,
) -> Result<Proto, NoMemory>
    ensures value { IfOk result (λ p. protocol_of p
        ≡ renamed (keeping_all (holds hidden.old) (renaming_of renaming.now))
        (protocol_of proto.now)) }
    ensures hidden { OnOk result (holds hidden.new ≡ holds hidden.old) }
{
    match proto {
        Proto::Nil => Ok(Proto::Nil),
        Proto::Out(c, r) => renamed_out(alloc, renaming, hidden, c, r),
        Proto::Par(p, q) => Ok(Proto::Par(
            renamed_proto_box(alloc, renaming, hidden, p)?,
            renamed_proto_box(alloc, renaming, hidden, q)?,
        )),
        Proto::Hide(c, w, p) => {
            let added = enter(hidden, c)?;
            let inner = renamed_proto_box(alloc, renaming, hidden, p)?;
            leave(hidden, c, added);
            Ok(Proto::Hide(c.copy(alloc)?, *w, inner))
        }
    }
}

/// The protocol with its free channels renamed. Below a `new c` the channel c keeps its name.
/// `Capture` tells the first `new` in preorder whose name is a new name.
pub fn embed(alloc: Global, renaming: &Renaming, proto: &Proto) -> Result<Proto, EmbedFault>
    ensures value { IfOk result (λ p.
        protocol_of p ≡ renamed (renaming_of renaming.now) (protocol_of proto.now)) }
    ensures free { OnOk result
        (AreDisjoint (values_of renaming.now) (hidden_channels (protocol_of proto.now))) }
    ensures instance { IfOk result (λ p.
        IsInstance renaming.now (protocol_of proto.now) (protocol_of p)) }
    ensures fault { IfErr result
        (TellsCapture renaming.now (hidden_channels (protocol_of proto.now))) }
{
    if let Some(name) = first_captured(renaming, proto) {
        return Err(EmbedFault::Capture {
            name: name.copy(alloc)?,
        });
    }
    let mut hidden = HashSet::new(alloc);
    Ok(renamed_proto(alloc, renaming, &mut hidden, proto)?)
}
