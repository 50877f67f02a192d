//! The faults of a source that spells no tree, with their offsets.
use ipdl_base::{NoMemory, Pos};
use std::alloc::AllocFailed;

/// Why bytes spell no tree.
#[derive(Clone, Copy, Debug, PartialEq, Eq)]
pub enum SpellCause {
    /// No well-formed character begins there, or the character may not stand there.
    BadByte,
    /// The character takes a name past 64 bytes.
    BadName,
    /// The source ends there, and a parenthesis is open.
    Unclosed,
    /// The tree is complete, and the character is neither a blank nor in a comment.
    Extra,
    /// The source ends there, and no tree stands in it.
    NoText,
}

/// Why no tree was read.
#[derive(Clone, Copy, Debug, PartialEq, Eq)]
pub enum TreeFault {
    /// The bytes spell no tree. The offset is the first at which that shows.
    Spell { pos: Pos, cause: SpellCause },
    /// The parenthesis would be the 201st open one.
    Deep { pos: Pos },
    /// Memory ran out.
    Memory,
}

impl From<NoMemory> for TreeFault {
    ghost use Rattle.std.specs.Prelude.{◌≡◌};
    ghost use Rattle.ipdl_tree.specs.declared.fault.TreeFault.TheVariants.{Memory};

    ghost from_gives = { λ _ e. e ≡ Memory };

    fn from(_error: NoMemory) -> TreeFault {
        TreeFault::Memory
    }
}

/// The value that found no room is dropped.
impl<T: Drop> From<AllocFailed<T>> for TreeFault {
    ghost use Rattle.std.specs.Prelude.{◌≡◌};
    ghost use Rattle.ipdl_tree.specs.declared.fault.TreeFault.TheVariants.{Memory};

    ghost from_gives = { λ _ e. e ≡ Memory };

    fn from(_failed: AllocFailed<T>) -> TreeFault {
        TreeFault::Memory
    }
}
