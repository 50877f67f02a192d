//! The call that makes the shape of a protocol.

ghost use Rattle.std.specs.Prelude.{◌≡◌, ◌++◌, List, Some, None, IfOk, IfErr, OnOk, option_map};
ghost use Rattle.ipdl_norm.specs.Gathered.{assignments_of, beside, hidden_of};
ghost use Rattle.ipdl_norm.specs.Repeated.{TellsRepeat, first_repeated, first_repeated_name};
ghost use Rattle.ipdl_norm.specs.Shaped.{all_hidden, assignments, hidden, names_of, shaped, side_by_side};
ghost use Rattle.ipdl_term.specs.Terms.{hiding, assignment, parallel};
ghost use Rattle.ipdl_term.specs.Views.{protocol_of, reaction_of};

use crate::fault::ShapeFault;
use ipdl_base::{Name, NoMemory};
use ipdl_term::{Names, Proto, React, boxed, copy_react, free};
use std::alloc::Global;

// A hidden channel, and an assignment, of a protocol that is lent.
type Hidden<'a> = (&'a Name, u8);

type Assignment<'a> = (&'a Name, &'a React);

// ---- what a protocol is made of

// Adds the hidden channels in preorder, and the assignments from the left.
fn gather<'a>(
    proto: &'a Proto,
    channels: &mut Vec<Hidden<'a>>,
    outs: &mut Vec<Assignment<'a>>,
) -> Result<(), NoMemory>
    ensures channels { OnOk result (hidden_of channels.new.items ≡ hidden_of channels.old.items ++ hidden (protocol_of proto.now)) }
    ensures outs { OnOk result (assignments_of outs.new.items ≡ assignments_of outs.old.items ++ assignments (protocol_of proto.now)) }
{
    match proto {
        Proto::Nil => {}
        Proto::Out(c, r) => outs.push((c, r))?,
        Proto::Par(p, q) => {
            gather(p, channels, outs)?;
            gather(q, channels, outs)?;
        }
        Proto::Hide(c, w, p) => {
            channels.push((c, *w))?;
            gather(p, channels, outs)?;
        }
    }
    Ok(())
}

// ---- names that repeat

// Refuses the first hidden channel, in their order, whose name is in the set or that of an earlier
// one.
fn refuse_repeat(alloc: Global, seen: Names, hidden: &[Hidden<'_>]) -> Result<(), ShapeFault>
    ensures ok { OnOk result (first_repeated seen (names_of (hidden_of hidden.now)) ≡ None) }
    ensures err { IfErr result (TellsRepeat (first_repeated seen (names_of (hidden_of hidden.now)))) }
{
    let mut seen = seen;
    for channel in hidden {
        let name = channel.0;
        if seen.has(name) {
            return Err(ShapeFault::NamesRepeat {
                name: name.copy(alloc)?,
            });
        }
        seen.add(name.copy(alloc)?)?;
    }
    Ok(())
}

// ---- the shape

// The assignment of a copy, beside the rest.
fn beside(
    alloc: Global,
    channel: &Name,
    reaction: &React,
    rest: Option<Proto>,
) -> Result<Proto, NoMemory>
    ensures { IfOk result (λ made. protocol_of made ≡ beside (channel.now, reaction_of reaction.now) (option_map protocol_of rest)) }
{
    let made = Proto::Out(channel.copy(alloc)?, copy_react(alloc, reaction)?);
    match rest {
        None => Ok(made),
        Some(rest) => Ok(Proto::Par(boxed(alloc, Ok(made))?, boxed(alloc, Ok(rest))?)),
    }
}

// The assignments side by side.
fn all_beside(alloc: Global, items: Vec<Assignment<'_>>) -> Result<Proto, NoMemory>
    ensures { IfOk result (λ made. protocol_of made ≡ side_by_side (assignments_of items.entry.items)) }
{
    let mut items = items;
    let mut made = None;
    while let Some((channel, reaction)) = items.pop() {
        made = Some(beside(alloc, channel, reaction, made)?);
    }
    Ok(made.unwrap_or(Proto::Nil))
}

// The protocol with the channels hidden.
fn under_all(alloc: Global, items: Vec<Hidden<'_>>, proto: Proto) -> Result<Proto, NoMemory>
    ensures { IfOk result (λ made. protocol_of made ≡ all_hidden (hidden_of items.entry.items) (protocol_of proto)) }
{
    let mut items = items;
    let mut made = proto;
    while let Some((channel, width)) = items.pop() {
        made = Proto::Hide(channel.copy(alloc)?, width, boxed(alloc, Ok(made))?);
    }
    Ok(made)
}

/// The shape of the protocol. Memory apart, `NamesRepeat` is answered exactly where a name repeats,
/// with the first such in preorder.
pub fn shape(alloc: Global, proto: &Proto) -> Result<Proto, ShapeFault>
    ensures shape { IfOk result (λ made. protocol_of made ≡ shaped (protocol_of proto.now)) }
    ensures different { IfOk result (λ _. first_repeated_name (protocol_of proto.now) ≡ None) }
    ensures fault { IfErr result (TellsRepeat (first_repeated_name (protocol_of proto.now))) }
{
    let mut channels = Vec::new(alloc);
    let mut outs = Vec::new(alloc);
    gather(proto, &mut channels, &mut outs)?;
    refuse_repeat(alloc, free(alloc, proto)?, channels.as_slice())?;
    channels.sort_by(|one, other| one.0.cmp(other.0))?;
    outs.sort_by(|one, other| one.0.cmp(other.0))?;
    Ok(under_all(alloc, channels, all_beside(alloc, outs)?)?)
}
