//! Paths: the place of a node in a term.

ghost use Rattle.std.specs.Prelude.{◌≡◌, ◌↔◌, [], ◌∷◌, ◌++◌, IfOk, IsTrue, OnOk, OnErr, bytes_eq};

use crate::memory::NoMemory;
use smallvec::SmallVec;
use std::alloc::Global;
use std::marker::Model;

/// A place in a term: the numbers of the children on the way to it, from the root on. A path of
/// at most eight numbers takes no memory.
#[derive(Debug, Drop)]
pub struct Path {
    children: SmallVec<u32, 8>,
}

impl Model for Path {
    ghost use Rattle.std.specs.Prelude.{List, ℕ};

    ghost Value = { List ℕ };

    ghost view = { λ p. p.children.items };
}

impl Path {
    /// The place of the whole term. It takes no memory, and keeps the allocator for its pushes.
    pub fn root(alloc: Global) -> Path
        ensures { result ≡ [] }
    {
        Path {
            children: SmallVec::new(alloc),
        }
    }

    /// Goes on to a child, counted from 0.
    pub fn push(&mut self, child: u32) -> Result<(), NoMemory>
        ensures ok { OnOk result (self.new ≡ self.old ++ child ∷ []) }
        ensures err { OnErr result (self.new ≡ self.old) }
    {
        self.children.push(child)?;
        Ok(())
    }

    /// The path of these numbers, in memory of its own.
    pub fn from_parts(alloc: Global, parts: &[u32]) -> Result<Path, NoMemory>
        ensures { IfOk result (λ path. path ≡ parts.now) }
    {
        Ok(Path {
            children: SmallVec::from_slice(alloc, parts)?,
        })
    }

    /// The numbers of the children, the root's first.
    pub fn parts(&self) -> &[u32]
        ensures { result.now ≡ self.now }
    {
        self.children.as_slice()
    }
}

impl PartialEq for Path {
    ghost use Rattle.std.specs.Prelude.{bytes_eq};
    ghost use Rattle.std.specs.Cmp.{partial_equiv_from_equiv};
    ghost use Rattle.std.specs.Cmp.Lexicographic.{nat_list_eq_equiv};

    ghost eq = { bytes_eq };

    ghost laws = { partial_equiv_from_equiv nat_list_eq_equiv };

    fn eq(&self, other: &Path) -> bool
        ensures value { result ≡ bytes_eq self.now other.now }
        ensures same { IsTrue result ↔ (self.now ≡ other.now) }
    {
        self.children.as_slice() == other.children.as_slice()
    }
}

impl Eq for Path {
    ghost use Rattle.std.specs.Cmp.Lexicographic.{nat_list_eq_equiv};

    ghost laws = { nat_list_eq_equiv };
}
