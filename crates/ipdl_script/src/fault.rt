//! Why a step is refused, and what is wrong with the scripts of a theorem.

ghost use Rattle.std.specs.Prelude.{◌≡◌};
ghost use Rattle.ipdl_script.specs.declared.fault.ScriptFault.TheVariants.{Memory as NoRoom};
ghost use Rattle.ipdl_script.specs.declared.fault.StepFault.TheVariants.{Memory};

use ipdl_base::{Bits, Limit, List, Name, NoMemory, Path};
use ipdl_typing::Ill;

/// A side of a theorem, whose script starts at its protocol.
#[derive(Clone, Copy, PartialEq, Eq, Debug)]
pub enum Side {
    Left,
    Right,
}

/// Why a step is refused.
#[derive(Drop)]
pub enum Cause {
    /// The path leaves the current term.
    NoPlace,
    /// The outer variable of this number, in an argument or in the term that is written out, has no
    /// binder around the place.
    NoVariable { number: u32 },
    /// A pair is for this channel, which the interface of what is used does not have.
    NoChannel { name: Name },
    /// These two channels of the interface get one name.
    NotInjective { first: Name, second: Name },
    /// This new name is hidden in a side of the assumption, or in a term of the theorem's chain.
    Capture { name: Name },
    /// The place is of another kind than the rule, or the term has not its left shape; or the part is
    /// not the side that is used, in its new names.
    NoMatch,
    /// The side condition of this number, counted from 1, is the first that fails.
    Side(u8),
    /// This new name is not visible at the place with its channel's width.
    NoPort { name: Name },
    /// The rule does not make the part at the place of the term that is written out.
    NotResult,
    /// The new whole term is not well typed at the theorem's interface.
    IllTyped(Ill),
    /// The truth that the rule asks for: an abstract symbol occurs, and this is the number of the
    /// first.
    Abstract { symbol: u32 },
    /// The widths of all subexpressions add up to more than 8,192: to this number, or to more where
    /// it is the last `u64`.
    Large { bits: u64 },
    /// The widths of the free variables add up to more than 12: to this number.
    TooWide { bits: u64 },
    /// The two expressions differ where the conditions are met, first at these values of the free
    /// variables: the depth of each, which is 0 for that of the outermost binder, and its value, the
    /// outermost first.
    NotSame { valuation: List<(u32, Bits)> },
    /// The linear forms of the two expressions differ, first in this bit, or this is the smaller width
    /// where the widths differ and all bits that both have agree.
    NotForm { bit: u8 },
}

/// Why a step gives no term.
#[derive(Drop)]
pub enum StepFault {
    /// The step is refused.
    Refused(Cause),
    /// A term would be too large.
    Over(Limit),
    /// Memory ran out.
    Memory,
}

impl From<NoMemory> for StepFault {
    ghost from_gives = { λ _ fault. fault ≡ Memory };

    fn from(_error: NoMemory) -> StepFault {
        StepFault::Memory
    }
}

/// What is wrong with the scripts of a theorem.
#[derive(Drop)]
pub enum Wrong {
    /// A step, counted from 1 on its side, is refused.
    At { side: Side, step: u32, cause: Cause },
    /// The scripts end in two terms, which differ first at this place.
    Ends { path: Path },
}

/// Why the scripts of a theorem give no chain.
#[derive(Drop)]
pub enum ScriptFault {
    /// The first thing that is wrong.
    Wrong(Wrong),
    /// A step, counted from 1 on its side, would make a term too large or the chain too long.
    Over { limit: Limit, side: Side, step: u32 },
    /// Memory ran out.
    Memory,
}

impl From<NoMemory> for ScriptFault {
    ghost from_gives = { λ _ fault. fault ≡ NoRoom };

    fn from(_error: NoMemory) -> ScriptFault {
        ScriptFault::Memory
    }
}
