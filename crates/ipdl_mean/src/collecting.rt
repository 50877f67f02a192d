//! The assignments of a protocol, collected from left to right.

ghost use Rattle.std.specs.Prelude.{◌≡◌, ◌++◌, ◌+◌, ◌^◌, ◌<◌, length, map, OnOk, IfOk};
ghost use Rattle.ipdl_mean.specs.Readings.{assignments_from};
ghost use Rattle.ipdl_mean.specs.Views.{node_of, writers_of, whole_of};
ghost use Rattle.ipdl_term.specs.Networks.{assignment_count, writer_number};
ghost use Rattle.ipdl_term.specs.Protocols.{coins};
ghost use Rattle.ipdl_term.specs.Reactions.{reaction_coins};
ghost use Rattle.ipdl_term.specs.Terms.{assignment};
ghost use Rattle.ipdl_term.specs.Typing.{port_names};
ghost use Rattle.ipdl_term.specs.Views.{reaction_of, protocol_of};

use crate::net::Node;
use crate::readings::push_writers;
use crate::writers::{Visible, writer_number};
use ipdl_base::{Name, NoMemory};
use ipdl_term::{Port, Proto, React, coins};
use std::alloc::Global;

// The assignments so far, and how many bits of the tape they take.
#[derive(Drop)]
pub(crate) struct Collected<'a> {
    pub nodes: Vec<Node<'a>>,
    pub coins: u64,
}

// Adds an assignment.
#[inline(never)]
fn add<'a>(
    alloc: Global,
    channel: &'a Name,
    reaction: &'a React,
    coins: u64,
    visible: &Visible,
    so_far: &mut Collected<'a>,
) -> Result<(), NoMemory>
    requires few { assignment_count (whole_of visible.now) < 2 ^ 32 }
    requires coins { coins ≡ reaction_coins (reaction_of reaction.now) }
    requires bits { so_far.old.coins + coins < 2 ^ 64 }
    ensures nodes { OnOk result (map node_of so_far.new.nodes.items ≡ map node_of so_far.old.nodes.items
        ++ assignments_from (assignment channel.now (reaction_of reaction.now))
        (length so_far.old.nodes.items) so_far.old.coins (writers_of visible.now)) }
    ensures count { OnOk result (length so_far.new.nodes.items ≡ length so_far.old.nodes.items + 1) }
    ensures coins { OnOk result (so_far.new.coins ≡ so_far.old.coins + coins) }
{
    let mut writers = Vec::new(alloc);
    push_writers(reaction, visible, &mut writers)?;
    let first_bit = so_far.coins;
    so_far.nodes.push(Node {
        channel,
        reaction,
        first_bit,
        coins,
        writers,
    })?;
    so_far.coins = first_bit + coins;
    Ok(())
}

// Adds the assignments of a protocol.
pub(crate) fn collect<'a>(
    alloc: Global,
    proto: &'a Proto,
    visible: &Visible,
    so_far: &mut Collected<'a>,
) -> Result<(), NoMemory>
    requires whole { assignment_count (whole_of visible.now) < 2 ^ 32 }
    requires few { length so_far.old.nodes.items + assignment_count (protocol_of proto.now) < 2 ^ 32 }
    requires bits { so_far.old.coins + coins (protocol_of proto.now) < 2 ^ 64 }
    ensures nodes { OnOk result (map node_of so_far.new.nodes.items ≡ map node_of so_far.old.nodes.items
        ++ assignments_from (protocol_of proto.now) (length so_far.old.nodes.items) so_far.old.coins
        (writers_of visible.now)) }
    ensures count { OnOk result (length so_far.new.nodes.items
        ≡ length so_far.old.nodes.items + assignment_count (protocol_of proto.now)) }
    ensures coins { OnOk result (so_far.new.coins ≡ so_far.old.coins + coins (protocol_of proto.now)) }
{
    match proto {
        Proto::Nil => Ok(()),
        Proto::Out(channel, reaction) => add(
            alloc,
            channel,
            reaction,
            coins(proto),
            visible,
            so_far,
        ),
        Proto::Par(p, q) => {
            collect(alloc, p, visible, so_far)?;
            collect(alloc, q, visible, so_far)
        }
        Proto::Hide(channel, _, p) => {
            let number = writer_number(p, so_far.nodes.len() as u32, channel);
            let inside = Visible::Hidden(&*visible, &*channel, number);
            collect(alloc, p, &inside, so_far)
        }
    }
}

// The writers of outputs.
pub(crate) fn output_writers(
    alloc: Global,
    proto: &Proto,
    outputs: &[Port],
) -> Result<Vec<Option<u32>>, NoMemory>
    requires { assignment_count (protocol_of proto.now) < 2 ^ 32 }
    ensures { IfOk result (λ writers. writers.items
        ≡ map (writer_number (protocol_of proto.now) 0) (port_names outputs.now)) }
{
    let mut writers = Vec::new(alloc);
    for port in outputs {
        writers.push(writer_number(proto, 0, &port.name))?;
    }
    Ok(writers)
}
