//! Why there is no network, and why it is not solved.

use ipdl_base::Name;

/// Why a protocol has no network. Where several causes hold, it is the first in this order.
#[derive(Debug, Drop)]
pub enum NetFault {
    /// The protocol has inputs, and this is the first.
    OpenInput { name: Name },
    /// An abstract symbol occurs, and this is the number of the first.
    AbstractSymbol { symbol: u32 },
    /// Memory ran out.
    Memory,
}

/// Why a network was not solved.
#[derive(Clone, Copy, Debug, PartialEq, Eq)]
pub enum SolveFault {
    /// The tape has fewer bits than the protocol has coins.
    ShortTape {
        /// The coins of the protocol.
        want: u64,
        /// The bits of the tape.
        got: u64,
    },
    /// Memory ran out.
    Memory,
}
