//! Why a tree is refused as a document: the cause and the offset of the first test that fails.

ghost use Rattle.std.specs.Prelude.{◌≡◌};
ghost use Rattle.ipdl_forms.specs.declared.fault.DocFault.TheVariants.{Memory};

use ipdl_base::{Limit, NoMemory, Pos};
use std::alloc::AllocFailed;

/// Why a tree is not of the form that is asked.
#[derive(Clone, Copy, Debug, PartialEq, Eq)]
pub enum FormCause {
    /// No form has this list here, or no such token stands here.
    NotAForm,
    /// Nothing of this name is declared earlier, or no binder around has it.
    UnknownName,
    /// The name was given before, or is that of an operator.
    Repeated,
    /// The width, or the number of a `cut`, is not one that the form allows.
    WrongWidth,
    /// A table has not one value for each argument.
    TableLength,
}

/// Why a document was not read: the first test that fails in reading order.
#[derive(Clone, Copy, Debug, PartialEq, Eq)]
pub enum DocFault {
    /// The tree at this offset is not of the form that is asked.
    Form { pos: Pos, cause: FormCause },
    /// The tree at this offset passes a limit.
    Over { limit: Limit, pos: Pos },
    /// Memory ran out.
    Memory,
}

impl From<NoMemory> for DocFault {
    ghost from_gives = { λ _ fault. fault ≡ Memory };

    fn from(_error: NoMemory) -> DocFault {
        DocFault::Memory
    }
}

/// The value that found no room is dropped.
impl<T: Drop> From<AllocFailed<T>> for DocFault {
    ghost from_gives = { λ _ fault. fault ≡ Memory };

    fn from(_failed: AllocFailed<T>) -> DocFault {
        DocFault::Memory
    }
}
