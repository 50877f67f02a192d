//! The pairs of a renaming, shared by those who hold them.

ghost use Rattle.std.specs.Prelude.{◌≡◌, IfOk};

use ipdl_base::{Name, NoMemory};
use std::marker::Model;
use std::rc::RcSlice;

/// The pairs of a renaming, shared: a copy takes no memory of its own for them. Contracts see the
/// list of the pairs.
#[derive(Drop)]
pub struct SharedPairs {
    pairs: RcSlice<(Name, Name)>,
}

impl Model for SharedPairs {
    ghost use Rattle.std.specs.Prelude.{List, ℕ};
    ghost use Rattle.std.specs.Rc.{rc_slice_items};

    ghost Value = { List (List ℕ × List ℕ) };

    ghost view = { λ s. rc_slice_items s.pairs };
}

impl SharedPairs {
    /// These pairs, in their own memory.
    pub fn from_vec(pairs: Vec<(Name, Name)>) -> Result<SharedPairs, NoMemory>
        ensures { IfOk result (λ shared. shared ≡ pairs.items) }
    {
        let pairs = RcSlice::from_vec(pairs)?;
        Ok(SharedPairs { pairs })
    }

    /// The pairs, to be read in order.
    pub fn as_slice(&self) -> &[(Name, Name)]
        ensures { result.now ≡ self.now }
    {
        self.pairs.as_slice()
    }

    /// The same pairs. It fails only where they have as many owners as can be counted.
    pub fn share(&self) -> Result<SharedPairs, NoMemory>
        ensures { IfOk result (λ copy. copy ≡ self.now) }
    {
        let pairs = self.pairs.clone()?;
        Ok(SharedPairs { pairs })
    }
}
