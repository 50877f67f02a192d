//! Operations on forms, bit by bit.

ghost use Rattle.std.specs.Prelude.{◌≡◌, List, IfOk, OnOk};
ghost use Rattle.ipdl_linear.specs.Entries.{AllStand, Combines, FormStands, IsGrowth, IsNumbering};
ghost use Rattle.ipdl_linear.specs.LinearForms.{Form, bitwise, choice, choices};
ghost use Rattle.ipdl_linear.specs.Operations.{IsOperation};

use crate::numbering::{Numbering, ONE_FORM};
use ipdl_base::NoMemory;

/// An operation on two forms.
#[derive(Clone, Copy)]
pub(crate) enum Operator {
    /// Their sum.
    Plus,
    /// Their product.
    Times,
    /// The first one and 1.
    Negation,
    /// The first one where the form of this number is 1, and else the second.
    Choice(usize),
}

impl Numbering {
    // The second form where the first is 1, and else the third.
    fn choice(&mut self, test: usize, p: usize, q: usize) -> Result<usize, NoMemory>
        ensures growth { OnOk result (IsGrowth self.old self.new) }
        ensures form { IfOk result (λ n. (c : Form) → FormStands self.old test c →
            Combines (choice c) self.old self.new p q n) }
    {
        let sum = self.plus(p, q)?;
        let part = self.times(test, sum)?;
        self.plus(q, part)
    }

    fn operate(&mut self, operator: Operator, p: usize, q: usize) -> Result<usize, NoMemory>
        ensures growth { OnOk result (IsGrowth self.old self.new) }
        ensures form { IfOk result (λ n. (op : Form → Form → Form) → IsOperation self.old operator op →
            Combines op self.old self.new p q n) }
    {
        match operator {
            Operator::Plus => self.plus(p, q),
            Operator::Times => self.times(p, q),
            Operator::Negation => self.plus(p, ONE_FORM),
            Operator::Choice(test) => self.choice(test, p, q),
        }
    }

    // The operation on each two forms, as far as both lists go.
    pub(crate) fn bitwise(
        &mut self,
        operator: Operator,
        ps: &[usize],
        qs: &[usize],
    ) -> Result<Vec<usize>, NoMemory>
        ensures growth { OnOk result (IsGrowth self.old self.new) }
        ensures forms { IfOk result (λ ns. (op : Form → Form → Form) → IsNumbering self.old →
            IsOperation self.old operator op → (fs gs : List Form) →
            AllStand self.old ps.now fs → AllStand self.old qs.now gs →
            AllStand self.new ns.items (bitwise op fs gs)) }
    {
        let mut forms = Vec::new(self.allocator());
        for i in 0..ps.len().min(qs.len()) {
            let form = self.operate(operator, ps[i], qs[i])?;
            forms.push(form)?;
        }
        Ok(forms)
    }

    // The second forms where the first one, of one bit, is 1, and else the third.
    pub(crate) fn choices(
        &mut self,
        tests: &[usize],
        ps: &[usize],
        qs: &[usize],
    ) -> Result<Vec<usize>, NoMemory>
        ensures growth { OnOk result (IsGrowth self.old self.new) }
        ensures forms { IfOk result (λ ns. IsNumbering self.old → (ts fs gs : List Form) →
            AllStand self.old tests.now ts → AllStand self.old ps.now fs → AllStand self.old qs.now gs →
            AllStand self.new ns.items (choices ts fs gs)) }
    {
        match tests.first() {
            Some(test) => self.bitwise(Operator::Choice(*test), ps, qs),
            None => Ok(Vec::new(self.allocator())),
        }
    }
}
