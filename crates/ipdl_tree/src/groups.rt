//! The parentheses that are open, with the trees between them so far.
ghost use Rattle.std.specs.Prelude.{◌≡◌, ◌↔◌, ◌<◌, [], ◌∷◌, length, map, IfOk, OnOk, Option, IsTrue};
ghost use Rattle.std.specs.Option.{MatchOption};
ghost use Rattle.ipdl_tree.specs.Trees.{Located};
ghost use Rattle.ipdl_tree.specs.Reading.{no_token, add_to};
ghost use Rattle.ipdl_tree.specs.Openings.{groups_of};
ghost use Rattle.ipdl_tree.specs.Views.{located};

use crate::tree::Tree;
use ipdl_base::{NoMemory, Pos};
use std::alloc::Global;
use std::marker::Model;

// An open parenthesis: its offset, and the place of its first tree.
#[derive(Drop)]
struct Opening {
    pos: Pos,
    first: usize,
}

// All trees that no closed parentheses hold stand in one row. Parentheses that close take theirs
// off its end, in memory of just their size.
#[derive(Drop)]
pub(crate) struct OpenGroups {
    openings: Vec<Opening>,
    trees: Vec<Tree>,
}

impl Model for OpenGroups {
    ghost use Rattle.std.specs.Prelude.{List, length, reverse};
    ghost use Rattle.ipdl_tree.specs.Openings.{AreWithin};
    ghost use Rattle.ipdl_tree.specs.declared.groups.Opening.{Opening};
    ghost use Rattle.ipdl_tree.specs.declared.tree.Tree.{Tree};
    ghost use Rattle.ipdl_tree.specs.contracts.tree.Tree.{the_row};
    ghost use Rattle.std.specs.Coded.{codes};

    ghost Value = { List Opening × List Tree };

    ghost coded = { Prim.hlevel (codes, the_row.coded) };

    ghost view = { λ g. (g.openings.items, g.trees.items) };

    ghost invariant = { λ g. AreWithin (reverse g.openings.items) (length g.trees.items) };
}

impl OpenGroups {
    // No open parentheses.
    pub(crate) fn empty(alloc: Global) -> OpenGroups
        ensures { groups_of result ≡ [] }
    {
        OpenGroups {
            openings: Vec::new(alloc),
            trees: Vec::new(alloc),
        }
    }

    // How many are open.
    pub(crate) fn count(&self) -> usize
        ensures { result ≡ length (groups_of self.now) }
    {
        self.openings.len()
    }

    // A parenthesis opens at the offset.
    pub(crate) fn open(&mut self, pos: Pos) -> Result<(), NoMemory>
        ensures { OnOk result (groups_of self.new ≡ record { start = pos.0; parts = [] } ∷ groups_of self.old) }
    {
        self.openings.push(Opening {
            pos,
            first: self.trees.len(),
        })?;
        Ok(())
    }

    // The next tree of the innermost ones.
    pub(crate) fn add(&mut self, tree: Tree) -> Result<(), NoMemory>
        requires { 0 < length (groups_of self.old) }
        ensures { (complete : Option Located) → OnOk result
            (record { token = no_token; groups = groups_of self.new; complete = complete } ≡ add_to (located tree) (groups_of self.old) complete) }
    {
        self.trees.push(tree)?;
        Ok(())
    }

    // The innermost ones close: their offset and their trees, or nothing where none are open.
    pub(crate) fn close(&mut self) -> Result<Option<(Pos, Vec<Tree>)>, NoMemory>
        ensures { IfOk result (λ closed. MatchOption closed (groups_of self.old ≡ [])
            (λ group. groups_of self.old ≡ record { start = group.0.0; parts = map located group.1.items } ∷ groups_of self.new)) }
    {
        let Some(opening) = self.openings.pop() else {
            return Ok(None);
        };
        let trees = self.trees.split_off(opening.first)?;
        Ok(Some((opening.pos, trees)))
    }
}
