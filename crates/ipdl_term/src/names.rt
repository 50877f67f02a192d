//! Sets of names, kept in the order of their bytes.

ghost use Rattle.std.specs.Prelude.{◌≡◌, ◌||◌, [], ◌∷◌, IfOk, OnOk, OnErr};
ghost use Rattle.std.specs.Cmp.Lexicographic.{slice_cmp};
ghost use Rattle.std.specs.List.Sorted.{IsStrictlySortedBy};
ghost use Rattle.std.specs.Ordering.{nat_cmp};
ghost use Rattle.ipdl_term.specs.Channels.{has, without, union, intersection, SameSet};
ghost use Rattle.ipdl_term.specs.Terms.{Channel};

use ipdl_base::{Name, NoMemory};
use std::alloc::Global;
use std::marker::Model;

/// A set of names. Contracts see it as the list of its members in the order of their bytes, no
/// member twice.
#[derive(Drop)]
pub struct Names {
    names: Vec<Name>,
}

impl Model for Names {
    ghost use Rattle.std.specs.Prelude.{List, ℕ};
    ghost use Rattle.std.specs.Cmp.Lexicographic.{slice_cmp};
    ghost use Rattle.std.specs.List.Sorted.{IsStrictlySortedBy};
    ghost use Rattle.std.specs.Ordering.{nat_cmp};

    ghost Value = { List (List ℕ) };

    ghost view = { λ set. set.names.items };

    ghost invariant = { λ set. IsStrictlySortedBy (slice_cmp nat_cmp) set.names.items };
}

impl Names {
    /// The set with no member. It takes no memory, and keeps the allocator for its growth.
    pub fn empty(alloc: Global) -> Names
        ensures { result ≡ [] }
    {
        Names {
            names: Vec::new(alloc),
        }
    }

    /// Whether the name is a member.
    pub fn has(&self, name: &Name) -> bool
        ensures { result ≡ has self.now name.now }
    {
        self.names.binary_search(name).is_ok()
    }

    /// Makes the name a member, unless it is one. Where memory runs out the name is dropped.
    pub fn add(&mut self, name: Name) -> Result<(), NoMemory>
        ensures ok { OnOk result (SameSet self.new (name ∷ self.old)) }
        ensures err { OnErr result (self.new ≡ self.old) }
    {
        if let Err(place) = self.names.binary_search(&name) {
            self.names.insert(place, name)?;
        }
        Ok(())
    }

    /// The members in the order of their bytes.
    pub fn list(&self) -> &[Name]
        ensures value { result.now ≡ self.now }
        ensures ordered { IsStrictlySortedBy (slice_cmp nat_cmp) result.now }
    {
        self.names.as_slice()
    }

    // Leaves out the name.
    pub(crate) fn remove(&mut self, name: &Name)
        ensures { self.new ≡ without name.now self.old }
    {
        self.names.retain(|held| *name != *held);
    }

    // The members of both sets. The smaller set goes into the larger one, so that many unions in a
    // row stay cheap.
    pub(crate) fn join(self, other: Names) -> Result<Names, NoMemory>
        ensures { IfOk result (λ all. SameSet all (union self other)) }
    {
        if self.names.len() < other.names.len() {
            other.join_each(self)
        } else {
            self.join_each(other)
        }
    }

    // The members of both sets, each of the other one added in turn.
    fn join_each(self, other: Names) -> Result<Names, NoMemory>
        ensures { IfOk result (λ all. (c : Channel) → has all c ≡ (has self c || has other c)) }
    {
        let mut all = self;
        let Names { names: mut rest } = other;
        while let Some(name) = rest.pop() {
            all.add(name)?;
        }
        Ok(all)
    }

    // Leaves out what is no member of the other set.
    pub(crate) fn keep_common(&mut self, other: &Names)
        ensures { self.new ≡ intersection self.old other.now }
    {
        self.names.retain(|held| other.has(held));
    }
}
