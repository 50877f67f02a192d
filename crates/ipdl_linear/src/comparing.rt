//! The first bit in which two expressions have other forms.

ghost use Rattle.std.specs.Prelude.{◌≡◌, IfOk};
ghost use Rattle.ipdl_linear.specs.Likeness.{pair_of, likeness_of, telling};
ghost use Rattle.ipdl_linear.specs.Numbers.{first_unequal};

use crate::likeness::Likeness;
use crate::numbering::Numbering;
use ipdl_base::NoMemory;
use ipdl_sig::Sig;
use ipdl_term::Expr;
use std::alloc::Global;

// The first place at which two lists of numbers are not the same.
fn first_unequal(a: &[usize], b: &[usize]) -> Option<usize>
    ensures { result ≡ first_unequal a.now b.now }
{
    let common = a.len().min(b.len());
    for i in 0..common {
        if a[i] != b[i] {
            return Some(i);
        }
    }
    if a.len() == b.len() {
        None
    } else {
        Some(common)
    }
}

// The answer for a first difference. A width fits `u8`, and so does the number of a bit.
fn telling(difference: Option<usize>) -> Result<Likeness, NoMemory>
    ensures { IfOk result (λ answer. answer ≡ telling difference) }
{
    let Some(index) = difference else {
        return Ok(Likeness::Same);
    };
    match u8::try_from(index) {
        Ok(bit) => Ok(Likeness::Differ { bit }),
        Err(_) => Err(NoMemory),
    }
}

// The answer, whatever the size.
pub(crate) fn compare(
    alloc: Global,
    sig: &Sig,
    widths: &[u8],
    left: &Expr,
    right: &Expr,
) -> Result<Likeness, NoMemory>
    ensures { IfOk result (λ answer. answer ≡ likeness_of (pair_of sig.now widths.now left.now right.now)) }
{
    let mut numbering = Numbering::start(alloc)?;
    let left = numbering.linear_forms(sig, widths, left)?;
    let right = numbering.linear_forms(sig, widths, right)?;
    telling(first_unequal(left.as_slice(), right.as_slice()))
}
