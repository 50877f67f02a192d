//! What a check answers where the term is ill typed.

ghost use Rattle.std.specs.Prelude.{◌≡◌};
ghost use Rattle.ipdl_typing.specs.declared.fault.TypeFault.TheVariants.{Memory};

use ipdl_base::{Name, NoMemory, Path};
use std::alloc::AllocFailed;

/// A check that fails, at a place in the term.
#[derive(Drop)]
pub struct Ill {
    /// The place: of the node that has the check, or of the child whose width is at fault.
    pub path: Path,
    /// Which check fails, and at what.
    pub cause: IllCause,
}

/// Which check fails.
#[derive(Drop)]
pub enum IllCause {
    /// The width of the node is not the wanted one, or not within the wanted one. Both in bits.
    Width { want: u16, got: u16 },
    /// The variable has no binder.
    Unbound { number: u32 },
    /// The signature has no symbol of this number.
    NoSymbol { number: u32 },
    /// The channel that is read is not visible.
    Unwritten { name: Name },
    /// The channel that is written is no output and is not hidden around the place.
    NotOutput { name: Name },
    /// The channel is written at an earlier place already.
    Twice { name: Name },
    /// The hidden channel is not written.
    NewUnwritten { name: Name },
    /// The declared output is not written.
    Missing { name: Name },
    /// The channel stands in one interface and not in the other, or there with another width.
    Interface { name: Name },
}

/// Why a check does not say yes.
#[derive(Drop)]
pub enum TypeFault {
    /// The term is ill typed: its first check that fails.
    Ill(Ill),
    /// Memory ran out.
    Memory,
}

impl From<NoMemory> for TypeFault {
    ghost from_gives = { λ _ fault. fault ≡ Memory };

    fn from(_error: NoMemory) -> TypeFault {
        TypeFault::Memory
    }
}

/// The value that found no room is dropped.
impl<T: Drop> From<AllocFailed<T>> for TypeFault {
    ghost from_gives = { λ _ fault. fault ≡ Memory };

    fn from(_failed: AllocFailed<T>) -> TypeFault {
        TypeFault::Memory
    }
}
