//! The forms of what has no operands but the forms of a symbol's argument.

ghost use Rattle.std.specs.Prelude.{◌≡◌, ℕ, Bool, Some, List, slice_get, unwrap_or, map, IfOk, OnOk, reverse};
ghost use Rattle.ipdl_linear.specs.Entries.{AllStand, IsGrowth, IsNumbering, entry_of};
ghost use Rattle.ipdl_linear.specs.LinearForms.{Atom, places};
ghost use Rattle.ipdl_linear.specs.Operations.{IsSource, constant_number, entry_at, forms_of_leaf};
ghost use Rattle.ipdl_term.specs.Views.{expression_of};

use crate::node::Node;
use crate::numbering::{NOTHING, Numbering, ONE_FORM};
use ipdl_base::{Bits, NoMemory};
use ipdl_term::Expr;
use std::alloc::Global;

/// What has an atom for each of its places.
#[derive(Drop)]
pub(crate) enum Source {
    /// The variable of this number.
    Variable(u32),
    /// The symbol of this number, at the argument whose bits have these forms.
    Symbol(u32, Vec<usize>),
}

// The number of the form of the bit at the place, counted from 0 on the left.
fn bit_form(bits: Bits, place: u8) -> usize
    ensures { (b : Bool) → slice_get bits place ≡ Some b → result ≡ constant_number b }
{
    match bits.cut(place, 1) {
        Ok(bit) if bit.value() == 1 => ONE_FORM,
        _ => NOTHING,
    }
}

// The numbers of the forms of bits.
fn constants(alloc: Global, bits: Bits) -> Result<Vec<usize>, NoMemory>
    ensures { IfOk result (λ ns. ns.items ≡ map constant_number bits) }
{
    let mut forms = Vec::new(alloc);
    for place in 0..bits.width() {
        forms.push(bit_form(bits, place))?;
    }
    Ok(forms)
}

// The atom for a place.
fn atom_at(alloc: Global, source: &Source, place: usize) -> Result<Node, NoMemory>
    ensures { IfOk result (λ node. entry_of node ≡ entry_at source.now place) }
{
    match source {
        Source::Variable(number) => Ok(Node::Variable(*number, place)),
        Source::Symbol(number, forms) => {
            let forms = Vec::from_slice(alloc, forms.as_slice())?;
            Ok(Node::SymbolBit(*number, forms, place))
        }
    }
}

// The width of a variable, 0 where it has no binder.
pub(crate) fn variable_width(widths: &[u8], number: u32) -> u8
    ensures { result ≡ unwrap_or (slice_get (reverse widths.now) number) 0 }
{
    match widths.len().checked_sub(number as usize + 1) {
        Some(index) => widths[index],
        None => 0,
    }
}

impl Numbering {
    // A form of one atom for each place.
    pub(crate) fn places(&mut self, source: &Source, width: u8) -> Result<Vec<usize>, NoMemory>
        ensures growth { OnOk result (IsGrowth self.old self.new) }
        ensures forms { IfOk result (λ ns. (atom : ℕ → Atom) → IsNumbering self.old →
            IsSource self.old source.now atom → AllStand self.new ns.items (places atom 0 width)) }
    {
        let alloc = self.allocator();
        let mut forms = Vec::new(alloc);
        for place in 0..usize::from(width) {
            let atom = atom_at(alloc, source, place)?;
            let form = self.single(atom)?;
            forms.push(form)?;
        }
        Ok(forms)
    }

    // The forms of an expression with no operand.
    #[inline(never)]
    pub(crate) fn leaf(&mut self, widths: &[u8], term: &Expr) -> Result<Vec<usize>, NoMemory>
        ensures growth { OnOk result (IsGrowth self.old self.new) }
        ensures forms { IfOk result (λ ns. IsNumbering self.old →
            AllStand self.new ns.items (forms_of_leaf (reverse widths.now) (expression_of term.now))) }
    {
        match term {
            Expr::Lit(bits) => constants(self.allocator(), *bits),
            Expr::Var(number) => {
                self.places(&Source::Variable(*number), variable_width(widths, *number))
            }
            _ => Ok(Vec::new(self.allocator())),
        }
    }
}
