//! Why linear forms are not compared.

ghost use Rattle.std.specs.Prelude.{◌≡◌};
ghost use Rattle.ipdl_linear.specs.declared.fault.LinearFault.TheVariants.{Memory};

use ipdl_base::NoMemory;

/// Why no answer is given.
#[derive(Clone, Copy, Debug, PartialEq, Eq)]
pub enum LinearFault {
    /// The widths of all subexpressions add up to more than 8,192: to this number, or to more where
    /// it is the last `u64`.
    Large { bits: u64 },
    /// Memory ran out.
    Memory,
}

impl From<NoMemory> for LinearFault {
    ghost from_gives = { λ _ fault. fault ≡ Memory };

    fn from(_error: NoMemory) -> LinearFault {
        LinearFault::Memory
    }
}
