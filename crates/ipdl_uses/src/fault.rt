//! Why something may not be used at a place.

ghost use Rattle.std.specs.Prelude.{◌≡◌};
ghost use Rattle.ipdl_uses.specs.declared.fault.UseFault.TheVariants.{Memory};

use ipdl_base::{Name, NoMemory};

/// Why something may not be used at a place.
#[derive(Drop)]
pub enum UseFault {
    /// A pair is for this channel, which the interface does not have.
    NoChannel { name: Name },
    /// These two channels of the interface get one name.
    NotInjective { first: Name, second: Name },
    /// This new name is hidden in a term of the chain.
    Captured { name: Name },
    /// At the place is no protocol, or another one than the side in the new names.
    NotSide,
    /// This new name is not visible at the place with its channel's width.
    NoPort { name: Name },
    /// Memory ran out.
    Memory,
}

impl From<NoMemory> for UseFault {
    ghost from_gives = { λ _ fault. fault ≡ Memory };

    fn from(_error: NoMemory) -> UseFault {
        UseFault::Memory
    }
}
