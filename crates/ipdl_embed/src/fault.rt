//! Why no renaming, or no term in other names, is made.

ghost use Rattle.std.specs.Prelude.{◌≡◌};
ghost use Rattle.ipdl_embed.specs.declared.fault.EmbedFault.TheVariants.{Memory};

use ipdl_base::{Name, NoMemory};
use std::alloc::AllocFailed;

/// Why no renaming, or no term in other names, is made.
#[derive(Drop)]
pub enum EmbedFault {
    /// A pair is for this channel, which the interface does not have.
    NoChannel { name: Name },
    /// These two channels of the interface get one name.
    NotInjective { first: Name, second: Name },
    /// This new name is that of a `new` in the term.
    Capture { name: Name },
    /// Memory ran out.
    Memory,
}

impl From<NoMemory> for EmbedFault {
    ghost from_gives = { λ _ fault. fault ≡ Memory };

    fn from(_error: NoMemory) -> EmbedFault {
        EmbedFault::Memory
    }
}

/// The value that found no room is dropped.
impl<T: Drop> From<AllocFailed<T>> for EmbedFault {
    ghost from_gives = { λ _ fault. fault ≡ Memory };

    fn from(_failed: AllocFailed<T>) -> EmbedFault {
        EmbedFault::Memory
    }
}

/// A channel of an interface whose new name is not visible with the channel's width.
#[derive(Clone, Copy, Debug, PartialEq, Eq)]
pub struct NoPort {
    /// Its number among the channels of the interface, the inputs before the outputs.
    pub place: u64,
}
