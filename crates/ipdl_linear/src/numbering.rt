//! Atoms and forms under numbers.

ghost use Rattle.std.specs.Prelude.{◌≡◌, Some, slice_get, IfOk, OnOk};
ghost use Rattle.ipdl_linear.specs.Entries.{Combines, IsAdding, IsGrowth, IsNumbering, IsSingle, atoms_of, entry_of, sum_entry};
ghost use Rattle.ipdl_linear.specs.LinearForms.{choice, plus, times};

use crate::merging::merged;
use crate::node::Node;
use indexmap::IndexSet;
use ipdl_base::NoMemory;
use std::alloc::Global;
use std::marker::Model;

/// The number of the empty form.
pub(crate) const NOTHING: usize = 0;

/// The number of the form of the bit 1.
pub(crate) const ONE_FORM: usize = 2;

/// Atoms and forms, of which equal ones are kept once. Each has its place as its number, and
/// contracts see the list of them.
#[derive(Drop)]
pub(crate) struct Numbering {
    nodes: IndexSet<Node>,
    alloc: Global,
}

impl Model for Numbering {
    ghost use Rattle.std.specs.Prelude.{List, map};
    ghost use Rattle.ipdl_linear.specs.Entries.{Entry, entry_of};

    ghost Value = { List Entry };

    ghost view = { λ s. map entry_of s.nodes.keys };
}

impl Numbering {
    // The empty form, the atom 1 and its form, in this order.
    pub(crate) fn start(alloc: Global) -> Result<Numbering, NoMemory>
        ensures { IfOk result IsNumbering }
    {
        let mut numbering = Numbering {
            nodes: IndexSet::new(alloc),
            alloc,
        };
        numbering.number(Node::Sum(Vec::new(alloc)))?;
        let one = numbering.number(Node::One)?;
        let atoms = vec![in alloc; one]?;
        numbering.number(Node::Sum(atoms))?;
        Ok(numbering)
    }

    // What it takes its memory from.
    pub(crate) fn allocator(&self) -> Global {
        self.alloc
    }

    // The number of the node, which is added where it is not there.
    pub(crate) fn number(&mut self, node: Node) -> Result<usize, NoMemory>
        ensures { IfOk result (λ n. IsAdding self.old self.new n (entry_of node)) }
    {
        let (number, _) = self.nodes.insert_full(node)?;
        Ok(number)
    }

    // The atoms of a form.
    fn atoms(&self, form: usize) -> &[usize]
        ensures { result.now ≡ atoms_of (slice_get self.now form) }
    {
        match self.nodes.get_index(form) {
            Some(Node::Sum(atoms)) => atoms.as_slice(),
            _ => &[],
        }
    }

    // The form of one atom.
    pub(crate) fn single(&mut self, atom: Node) -> Result<usize, NoMemory>
        ensures { IfOk result (λ n. IsSingle self.old self.new n (entry_of atom)) }
    {
        let number = self.number(atom)?;
        let atoms = vec![in self.alloc; number]?;
        self.number(Node::Sum(atoms))
    }

    // The sum of two forms.
    pub(crate) fn plus(&mut self, p: usize, q: usize) -> Result<usize, NoMemory>
        ensures growth { OnOk result (IsGrowth self.old self.new) }
        ensures form { IfOk result (λ n. Combines plus self.old self.new p q n) }
    {
        let atoms = merged(self.alloc, self.atoms(p), self.atoms(q))?;
        self.number(Node::Sum(atoms))
    }

    // The product of two forms.
    pub(crate) fn times(&mut self, p: usize, q: usize) -> Result<usize, NoMemory>
        ensures growth { OnOk result (IsGrowth self.old self.new) }
        ensures form { IfOk result (λ n. Combines times self.old self.new p q n) }
    {
        if p == NOTHING || q == NOTHING {
            return Ok(NOTHING);
        }
        if p == ONE_FORM {
            return Ok(q);
        }
        if q == ONE_FORM || p == q {
            return Ok(p);
        }
        self.single(Node::Product(p.min(q), p.max(q)))
    }
}
