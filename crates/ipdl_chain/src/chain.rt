//! Chains as the program holds them, and the counts of their marks.

ghost use Rattle.std.specs.Prelude.{◌≡◌, ◌≤◌};
ghost use Rattle.ipdl_chain.specs.Chains.{count_in, count_of, exact_count, exact_in, neighbour_count, turned_direction, turned_mark};
ghost use Rattle.ipdl_chain.specs.Views.{chain_of, mark_of};
ghost use Rattle.ipdl_term.specs.Steps.{direction_of};

use ipdl_base::{List, Name, Path};
use ipdl_embed::SharedPairs;
use ipdl_term::{Ctx, Dir, Names, Proto};

/// By what a term comes from the one before it.
#[derive(Drop)]
pub enum Mark {
    /// The rule of this word at this place. `Dir::Lr` says that the upper term is the rule's left
    /// side.
    ByRule {
        dir: Dir,
        word: Name,
        path: Path,
    },
    /// The theorem of this name at this place, whose channels have these names there.
    ByTheorem {
        dir: Dir,
        name: Name,
        path: Path,
        renaming: SharedPairs,
    },
    /// The assumption of this name, likewise, and what is around the place.
    ByAssumption {
        dir: Dir,
        name: Name,
        path: Path,
        renaming: SharedPairs,
        ctx: Ctx,
    },
}

/// The chain of a theorem: its terms, from the left protocol to the right one, and the marks
/// between them, one fewer.
#[derive(Drop)]
pub struct Chain {
    pub name: Name,
    pub left: Name,
    pub right: Name,
    pub terms: List<Proto>,
    pub marks: List<Mark>,
    /// The channels that are hidden in some term, by whatever `new`. Who makes the chain keeps it;
    /// no call of this crate reads it.
    pub hidden: Names,
}

fn turned_dir(dir: Dir) -> Dir
    ensures { direction_of result ≡ turned_direction (direction_of dir) }
{
    match dir {
        Dir::Lr => Dir::Rl,
        Dir::Rl => Dir::Lr,
    }
}

impl Mark {
    /// The mark between the same two terms in the other order.
    pub fn turned(self) -> Mark
        ensures { mark_of result ≡ turned_mark (mark_of self) }
    {
        match self {
            Mark::ByRule { dir, word, path } => Mark::ByRule {
                dir: turned_dir(dir),
                word,
                path,
            },
            Mark::ByTheorem {
                dir,
                name,
                path,
                renaming,
            } => Mark::ByTheorem {
                dir: turned_dir(dir),
                name,
                path,
                renaming,
            },
            Mark::ByAssumption {
                dir,
                name,
                path,
                renaming,
                ctx,
            } => Mark::ByAssumption {
                dir: turned_dir(dir),
                name,
                path,
                renaming,
                ctx,
            },
        }
    }
}

// 1 for a mark that is no assumption.
fn exact_in(mark: &Mark) -> u64
    ensures value { result ≡ exact_in (mark_of mark.now) }
    ensures few { result ≤ 1 }
{
    match mark {
        Mark::ByRule { .. } | Mark::ByTheorem { .. } => 1,
        Mark::ByAssumption { .. } => 0,
    }
}

// 1 for a mark that is the assumption of this name, and else 0.
fn count_in(mark: &Mark, assumption: &Name) -> u64
    ensures value { result ≡ count_in assumption.now (mark_of mark.now) }
    ensures few { result ≤ 1 }
{
    match mark {
        Mark::ByRule { .. } | Mark::ByTheorem { .. } => 0,
        Mark::ByAssumption { name, .. } => u64::from(name == assumption),
    }
}

impl Chain {
    /// How many times a term stands after another one.
    pub fn neighbours(&self) -> u64
        ensures { result ≡ neighbour_count (chain_of self.now).links }
    {
        self.marks.as_slice().len() as u64
    }

    /// How many marks are no assumption.
    pub fn exact(&self) -> u64
        ensures { result ≡ exact_count (chain_of self.now).links }
    {
        let mut count = 0;
        for mark in self.marks.as_slice() {
            count += exact_in(mark);
        }
        count
    }

    /// How many marks are the assumption of this name.
    pub fn assumed(&self, assumption: &Name) -> u64
        ensures { result ≡ count_of assumption.now (chain_of self.now).links }
    {
        let mut count = 0;
        for mark in self.marks.as_slice() {
            count += count_in(mark, assumption);
        }
        count
    }
}
