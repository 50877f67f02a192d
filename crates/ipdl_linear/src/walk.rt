//! The linear forms of an expression.

ghost use Rattle.std.specs.Prelude.{◌≡◌, ◌∷◌, [], List, IfOk, OnOk, reverse, slice_get};
ghost use Rattle.ipdl_linear.specs.Entries.{AllStand, IsGrowth, IsNumbering};
ghost use Rattle.ipdl_linear.specs.LinearForms.{Form, are_zero_form, bitwise, linear_forms, plus};
ghost use Rattle.ipdl_linear.specs.Operations.{forms_over_one, forms_over_two, part_of};
ghost use Rattle.ipdl_term.specs.Views.{expression_of};
ghost use Rattle.ipdl_typing.specs.Checks.{symbol_to};
ghost use Rattle.ipdl_typing.specs.Signatures.{signature_of};

use crate::bitwise::Operator;
use crate::leaves::Source;
use crate::numbering::Numbering;
use ipdl_base::NoMemory;
use ipdl_sig::Sig;
use ipdl_term::Expr;
use std::alloc::Global;

// The width of a symbol's result, 0 where there is no such symbol.
pub(crate) fn result_width(sig: &Sig, number: u32) -> u8
    ensures { result ≡ symbol_to (slice_get (signature_of sig.now) number) }
{
    match sig.symbol(number) {
        Some(symbol) => symbol.to,
        None => 0,
    }
}

// As many forms as counted, from this one on, as far as there are.
fn part(alloc: Global, forms: &[usize], from: u8, count: u8) -> Result<Vec<usize>, NoMemory>
    ensures { IfOk result (λ ns. ns.items ≡ part_of from count forms.now) }
{
    let start = usize::from(from).min(forms.len());
    let end = (start + usize::from(count)).min(forms.len());
    Ok(Vec::from_slice(alloc, &forms[start..end])?)
}

impl Numbering {
    // The forms of an operator over an operand with these.
    #[inline(never)]
    fn over_one(&mut self, sig: &Sig, term: &Expr, a: Vec<usize>) -> Result<Vec<usize>, NoMemory>
        ensures growth { OnOk result (IsGrowth self.old self.new) }
        ensures forms { IfOk result (λ ns. IsNumbering self.old → (fs : List Form) →
            AllStand self.old a.items fs →
            AllStand self.new ns.items (forms_over_one (signature_of sig.now) (expression_of term.now) fs)) }
    {
        match term {
            Expr::Apply(number, _) => {
                let width = result_width(sig, *number);
                self.places(&Source::Symbol(*number, a), width)
            }
            Expr::Not(_) => self.bitwise(Operator::Negation, a.as_slice(), a.as_slice()),
            Expr::Cut(from, count, _) => part(self.allocator(), a.as_slice(), *from, *count),
            _ => Ok(Vec::new(self.allocator())),
        }
    }

    // The form of whether two operands with these are equal.
    fn equality(&mut self, a: &[usize], b: &[usize]) -> Result<Vec<usize>, NoMemory>
        ensures growth { OnOk result (IsGrowth self.old self.new) }
        ensures forms { IfOk result (λ ns. IsNumbering self.old → (fs gs : List Form) →
            AllStand self.old a.now fs → AllStand self.old b.now gs →
            AllStand self.new ns.items (are_zero_form (bitwise plus fs gs) ∷ [])) }
    {
        let sums = self.bitwise(Operator::Plus, a, b)?;
        let form = self.are_zero(sums)?;
        Ok(vec![in self.allocator(); form]?)
    }

    // The forms of an operator over operands with these.
    #[inline(never)]
    fn over_two(
        &mut self,
        term: &Expr,
        mut a: Vec<usize>,
        b: Vec<usize>,
    ) -> Result<Vec<usize>, NoMemory>
        ensures growth { OnOk result (IsGrowth self.old self.new) }
        ensures forms { IfOk result (λ ns. IsNumbering self.old → (fs gs : List Form) →
            AllStand self.old a.items fs → AllStand self.old b.items gs →
            AllStand self.new ns.items (forms_over_two (expression_of term.now) fs gs)) }
    {
        match term {
            Expr::Xor(_, _) => self.bitwise(Operator::Plus, a.as_slice(), b.as_slice()),
            Expr::And(_, _) => self.bitwise(Operator::Times, a.as_slice(), b.as_slice()),
            Expr::Cat(_, _) => {
                a.extend_from_slice(b.as_slice())?;
                Ok(a)
            }
            Expr::Same(_, _) => self.equality(a.as_slice(), b.as_slice()),
            _ => Ok(Vec::new(self.allocator())),
        }
    }

    // The numbers of the linear forms of an expression.
    pub(crate) fn linear_forms(
        &mut self,
        sig: &Sig,
        widths: &[u8],
        term: &Expr,
    ) -> Result<Vec<usize>, NoMemory>
        ensures growth { OnOk result (IsGrowth self.old self.new) }
        ensures forms { IfOk result (λ ns. IsNumbering self.old → AllStand self.new ns.items
            (linear_forms (signature_of sig.now) (reverse widths.now) (expression_of term.now))) }
    {
        match term {
            Expr::Lit(_) | Expr::Var(_) | Expr::Outer(_) => self.leaf(widths, term),
            Expr::Apply(_, a) | Expr::Not(a) | Expr::Cut(_, _, a) => {
                let a = self.linear_forms(sig, widths, a)?;
                self.over_one(sig, term, a)
            }
            Expr::Xor(a, b) | Expr::And(a, b) | Expr::Cat(a, b) | Expr::Same(a, b) => {
                let a = self.linear_forms(sig, widths, a)?;
                let b = self.linear_forms(sig, widths, b)?;
                self.over_two(term, a, b)
            }
            Expr::Mux(test, a, b) => {
                let test = self.linear_forms(sig, widths, test)?;
                let a = self.linear_forms(sig, widths, a)?;
                let b = self.linear_forms(sig, widths, b)?;
                self.choices(test.as_slice(), a.as_slice(), b.as_slice())
            }
        }
    }
}
