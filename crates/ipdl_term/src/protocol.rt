//! Protocols: networks of channels.

use crate::reaction::React;
use ipdl_base::Name;

/// A protocol: a network of channels, each of which at most one reaction may write.
#[derive(Drop)]
pub enum Proto {
    /// No channel.
    Nil,
    /// An assignment: the reaction writes the channel.
    Out(Name, React),
    /// Two protocols side by side.
    Par(Box<Proto>, Box<Proto>),
    /// The protocol with this channel, of this width in bits, hidden.
    Hide(Name, u8, Box<Proto>),
}
