//! Whether two expressions have one value on all values of their variables.

ghost use Rattle.std.specs.Prelude.{◌≡◌, ◌↔◌, ℕ, ◌^◌, ◌<◌, ◌≤◌, None, Some, List, IfOk, IfErr, length, map, reverse};
ghost use Rattle.ipdl_term.specs.Surroundings.{AreTests, condition_of};
ghost use Rattle.ipdl_term.specs.Terms.{Value};
ghost use Rattle.ipdl_term.specs.Typing.{HasWidth};
ghost use Rattle.ipdl_term.specs.Views.{expression_of};
ghost use Rattle.ipdl_truth.specs.Agreement.{AgreeEverywhere, DifferFirstAt, Tells};
ghost use Rattle.ipdl_truth.specs.FreeVariables.{greatest_free_bits};
ghost use Rattle.ipdl_truth.specs.Questions.{question_of, free_bits};
ghost use Rattle.ipdl_truth.specs.Refusals.{IsAbstract, IsLarge, IsTooWide};
ghost use Rattle.ipdl_truth.specs.Views.{asked_of};
ghost use Rattle.ipdl_typing.specs.Signatures.{signature_of};

use crate::abstracts::first_abstract;
use crate::enumeration::{first_difference, valuation};
use crate::free_variables::{free_bits, free_variables};
use crate::question::Question;
use crate::weights::weight_of;
use crate::zeros::nothing;
use ipdl_base::{Bits, List, NoMemory};
use ipdl_sig::Sig;
use ipdl_term::{Condition, Expr};
use std::alloc::Global;

// The greatest sum of the widths of all subexpressions.
const GREATEST_WEIGHT: u64 = 8_192;

// The greatest sum of the widths of the free variables.
const GREATEST_FREE_BITS: u64 = 12;

/// Whether two expressions have one value on all values of the variables that meet the conditions.
#[derive(Debug, Drop)]
pub enum Agreement {
    /// They have.
    Same,
    /// They have not. These are the least values of the free variables, read as one number, at which
    /// they differ: the depth of each, which is 0 for that of the outermost binder, and its value, the
    /// outermost first.
    Differ(List<(u32, Bits)>),
}

/// Why no answer is given. Where several causes hold, it is the first in this order.
#[derive(Clone, Copy, Debug, PartialEq, Eq)]
pub enum TruthFault {
    /// An abstract symbol occurs, and this is the number of the first.
    Abstract { symbol: u32 },
    /// The widths of all subexpressions add up to more than 8,192: to this number, or to more where
    /// it is the last `u64`.
    Large { bits: u64 },
    /// The widths of the free variables add up to more than 12: to this number.
    TooWide { bits: u64 },
    /// Memory ran out.
    Memory,
}

// The answer, where no fault stands in the way.
fn answer(alloc: Global, question: &Question, bits: u32) -> Result<Agreement, NoMemory>
    requires binders { length question.now.widths.now < 2 ^ 32 }
    requires sum { bits ≡ free_bits (asked_of question.now) }
    requires few { bits ≤ greatest_free_bits }
    ensures { IfOk result (Tells (asked_of question.now)) }
{
    let free = free_variables(alloc, question)?;
    let mut env = Vec::from_elem(alloc, nothing(), question.widths.len())?;
    match first_difference(question, &mut env, &free, bits) {
        Some(number) => Ok(Agreement::Differ(valuation(alloc, &free, bits, number)?)),
        None => Ok(Agreement::Same),
    }
}

// The answer, or that memory ran out.
fn compare(alloc: Global, question: &Question) -> Result<Agreement, TruthFault>
    requires binders { length question.now.widths.now < 2 ^ 32 }
    requires few { free_bits (asked_of question.now) ≤ greatest_free_bits }
    ensures ok { IfOk result (Tells (asked_of question.now)) }
    ensures err { IfErr result (λ fault. fault ≡ TruthFault.Memory) }
{
    let bits = free_bits(question) as u32;
    match answer(alloc, question, bits) {
        Ok(agreement) => Ok(agreement),
        Err(_) => Err(TruthFault::Memory),
    }
}

// The fault of the question, want of memory apart.
fn fault(question: &Question) -> Option<TruthFault>
    requires { length question.now.widths.now < 2 ^ 32 }
    ensures not_memory { result ≡ Some TruthFault.Memory → ⊥ }
    ensures abstracts { (symbol : ℕ) → (result ≡ Some (TruthFault.Abstract symbol))
        ↔ IsAbstract (asked_of question.now) symbol }
    ensures large { (bits : ℕ) → (result ≡ Some (TruthFault.Large bits))
        ↔ IsLarge (asked_of question.now) bits }
    ensures too_wide { (bits : ℕ) → (result ≡ Some (TruthFault.TooWide bits))
        ↔ IsTooWide (asked_of question.now) bits }
    ensures few { result ≡ None → free_bits (asked_of question.now) ≤ greatest_free_bits }
{
    if let Some(symbol) = first_abstract(question) {
        return Some(TruthFault::Abstract { symbol });
    }
    let bits = weight_of(question);
    if bits > GREATEST_WEIGHT {
        return Some(TruthFault::Large { bits });
    }
    let bits = free_bits(question);
    if bits > GREATEST_FREE_BITS {
        return Some(TruthFault::TooWide { bits });
    }
    None
}

/// Whether the two expressions have one value on all values of the variables that meet the
/// conditions. `widths` are those of the binders, from the outermost. The valuations of the free
/// variables are tried in the order of the numbers as which they are read, and none of them takes
/// memory.
pub fn agree(
    alloc: Global,
    sig: &Sig,
    widths: &[u8],
    left: &Expr,
    right: &Expr,
    conditions: &[Condition],
) -> Result<Agreement, TruthFault>
    requires left { (w : ℕ) × HasWidth (signature_of sig.now) (reverse widths.now)
        (expression_of left.now) w }
    requires right { (w : ℕ) × HasWidth (signature_of sig.now) (reverse widths.now)
        (expression_of right.now) w }
    requires tests { AreTests (signature_of sig.now) (reverse widths.now)
        (map condition_of conditions.now) }
    requires binders { length widths.now ≤ 4294967295 }
    ensures abstracts { let q = question_of sig.now widths.now left.now right.now conditions.now in
        (symbol : ℕ) → (result ≡ Err (TruthFault.Abstract symbol)) ↔ IsAbstract q symbol }
    ensures large { let q = question_of sig.now widths.now left.now right.now conditions.now in
        (bits : ℕ) → (result ≡ Err (TruthFault.Large bits)) ↔ IsLarge q bits }
    ensures too_wide { let q = question_of sig.now widths.now left.now right.now conditions.now in
        (bits : ℕ) → (result ≡ Err (TruthFault.TooWide bits)) ↔ IsTooWide q bits }
    ensures same { let q = question_of sig.now widths.now left.now right.now conditions.now in
        IfOk result (λ answer. (answer ≡ Agreement.Same) ↔ AgreeEverywhere q) }
    ensures differ { let q = question_of sig.now widths.now left.now right.now conditions.now in
        (valuation : List (ℕ × Value)) →
        result ≡ Ok (Agreement.Differ valuation) → DifferFirstAt q valuation }
{
    let question = Question {
        sig,
        widths,
        left,
        right,
        conditions,
    };
    match fault(&question) {
        Some(fault) => Err(fault),
        None => compare(alloc, &question),
    }
}
