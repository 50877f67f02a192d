//! Why a protocol has no shape.

ghost use Rattle.std.specs.Prelude.{◌≡◌};
ghost use Rattle.ipdl_norm.specs.declared.fault.ShapeFault.TheVariants.{Memory};

use ipdl_base::{Name, NoMemory};
use std::alloc::{AllocError, AllocFailed};

/// Why no shape is made of a protocol.
#[derive(Drop)]
pub enum ShapeFault {
    /// This name of a `new` is free in the protocol, or the name of an earlier `new`.
    NamesRepeat { name: Name },
    /// Memory ran out.
    Memory,
}

impl From<NoMemory> for ShapeFault {
    ghost from_gives = { λ _ fault. fault ≡ Memory };

    fn from(_error: NoMemory) -> ShapeFault {
        ShapeFault::Memory
    }
}

impl From<AllocError> for ShapeFault {
    ghost from_gives = { λ _ fault. fault ≡ Memory };

    fn from(_error: AllocError) -> ShapeFault {
        ShapeFault::Memory
    }
}

/// The value that found no room is dropped.
impl<T: Drop> From<AllocFailed<T>> for ShapeFault {
    ghost from_gives = { λ _ fault. fault ≡ Memory };

    fn from(_failed: AllocFailed<T>) -> ShapeFault {
        ShapeFault::Memory
    }
}
