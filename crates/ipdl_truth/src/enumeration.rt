//! The valuations of the free variables, tried one after the other.

ghost use Rattle.std.specs.Prelude.{◌≡◌, ◌+◌, ◌/◌, ◌^◌, ◌<◌, ◌≤◌, false, true, All, IfSome, IfNone, IfOk, length, reverse};
ghost use Rattle.ipdl_base.specs.Bits.{bits_of};
ghost use Rattle.ipdl_term.specs.Surroundings.{Meets};
ghost use Rattle.ipdl_truth.specs.Agreement.{AgreeOn, AgreeEverywhere, DifferFirstAt};
ghost use Rattle.ipdl_truth.specs.FreeVariables.{total_width};
ghost use Rattle.ipdl_truth.specs.Questions.{free_variables, free_bits};
ghost use Rattle.ipdl_truth.specs.Tables.{tables_of};
ghost use Rattle.ipdl_truth.specs.Valuations.{valued, put_in};
ghost use Rattle.ipdl_truth.specs.Views.{asked_of};

use crate::conditions::are_met;
use crate::evaluation::value_of;
use crate::question::Question;
use ipdl_base::{Bits, List, NoMemory};
use std::alloc::Global;

// The bits of the number before so many last ones.
fn value_at(number: u32, rest: u32, width: u8) -> Bits
    requires { rest + width ≤ 12 }
    ensures { result ≡ bits_of width (number / 2 ^ rest) }
{
    let value = (number >> rest) % (1 << width);
    Bits::new(width, u128::from(value)).unwrap()
}

// Gives the free variables the values that the number stands for.
fn fill(env: &mut [Bits], free: &[(u32, u8)], bits: u32, number: u32)
    requires sum { bits ≡ total_width free.now }
    requires few { bits ≤ 12 }
    requires within { All (λ v. v.0 < length env.old) free.now }
    ensures { env.new ≡ put_in (valued free.now number) env.old }
{
    let mut rest = bits;
    for (depth, width) in free {
        rest -= u32::from(*width);
        env[*depth as usize] = value_at(number, rest, *width);
    }
}

// The free variables with the values that the number stands for.
pub(crate) fn valuation(
    alloc: Global,
    free: &[(u32, u8)],
    bits: u32,
    number: u32,
) -> Result<List<(u32, Bits)>, NoMemory>
    requires sum { bits ≡ total_width free.now }
    requires few { bits ≤ 12 }
    ensures { IfOk result (λ valuation. valuation ≡ valued free.now number) }
{
    let mut valuation = Vec::new(alloc);
    let mut rest = bits;
    for (depth, width) in free {
        rest -= u32::from(*width);
        valuation.push((*depth, value_at(number, rest, *width)))?;
    }
    Ok(List::from_vec(valuation))
}

// Whether the values meet the conditions and the two expressions differ on them.
fn differ(question: &Question, env: &[Bits]) -> bool
    ensures met { result ≡ true → Meets (tables_of (asked_of question.now).sig) (reverse env.now)
        (asked_of question.now).conditions }
    ensures differ { result ≡ true → AgreeOn (asked_of question.now) env.now → ⊥ }
    ensures agree { result ≡ false → Meets (tables_of (asked_of question.now).sig) (reverse env.now)
        (asked_of question.now).conditions → AgreeOn (asked_of question.now) env.now }
{
    are_met(question.sig, env, question.conditions)
        && value_of(question.sig, env, question.left) != value_of(question.sig, env, question.right)
}

// The number of the first valuation on which they do.
pub(crate) fn first_difference(
    question: &Question,
    env: &mut [Bits],
    free: &[(u32, u8)],
    bits: u32,
) -> Option<u32>
    requires free { free.now ≡ free_variables (asked_of question.now) }
    requires sum { bits ≡ free_bits (asked_of question.now) }
    requires few { bits ≤ 12 }
    requires binders { length env.old ≡ length question.now.widths.now }
    ensures none { IfNone result (AgreeEverywhere (asked_of question.now)) }
    ensures some { IfSome result (λ n. DifferFirstAt (asked_of question.now) (valued free.now n)) }
{
    for number in 0..(1u32 << bits) {
        fill(env, free, bits, number);
        if differ(question, env) {
            return Some(number);
        }
    }
    None
}
