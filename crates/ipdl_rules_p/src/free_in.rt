//! Whether a channel is free or hidden in a protocol, found without taking memory.

ghost use Rattle.std.specs.Prelude.{◌≡◌};
ghost use Rattle.ipdl_term.specs.Channels.{has, free_channels};
ghost use Rattle.ipdl_term.specs.Renaming.{hidden_channels, occurs};
ghost use Rattle.ipdl_term.specs.Views.{protocol_of};

use crate::reading::{is_read_in, is_same};
use ipdl_base::Name;
use ipdl_term::Proto;

// Whether the channel is free in the protocol.
#[tactic(auto, using(crate::proofs::FreeChannels::free_in_forms))]
pub(crate) fn is_free_in(proto: &Proto, channel: &Name) -> bool
    ensures { result ≡ has (free_channels (protocol_of proto.now)) channel.now }
{
    match proto {
        Proto::Nil => false,
        Proto::Out(c, r) => is_same(c, channel) || is_read_in(r, channel),
        Proto::Par(p, q) => is_free_in(p, channel) || is_free_in(q, channel),
        Proto::Hide(c, _, p) => !is_same(c, channel) && is_free_in(p, channel),
    }
}

// Whether the channel is the name of a hidden one of the protocol.
#[tactic(auto, using(crate::proofs::FreeChannels::hidden_in_forms))]
fn is_hidden_in(proto: &Proto, channel: &Name) -> bool
    ensures { result ≡ has (hidden_channels (protocol_of proto.now)) channel.now }
{
    match proto {
        Proto::Nil | Proto::Out(_, _) => false,
        Proto::Par(p, q) => is_hidden_in(p, channel) || is_hidden_in(q, channel),
        Proto::Hide(c, _, p) => is_same(c, channel) || is_hidden_in(p, channel),
    }
}

// Whether the channel is free in the protocol or the name of a hidden one.
pub(crate) fn occurs_in(proto: &Proto, channel: &Name) -> bool
    ensures { result ≡ occurs channel.now (protocol_of proto.now) }
{
    is_free_in(proto, channel) || is_hidden_in(proto, channel)
}
