//! The difference of two sets of numbers.

ghost use Rattle.std.specs.Prelude.{◌≡◌, IfOk};
ghost use Rattle.ipdl_linear.specs.Numbers.{merged};

use ipdl_base::NoMemory;
use std::alloc::Global;

// The numbers that one of two increasing lists has and the other has not, in order.
pub(crate) fn merged(alloc: Global, a: &[usize], b: &[usize]) -> Result<Vec<usize>, NoMemory>
    ensures { IfOk result (λ v. v.items ≡ merged a.now b.now) }
{
    let mut numbers = Vec::new(alloc);
    let mut i = 0;
    let mut j = 0;
    while i < a.len() && j < b.len() {
        if a[i] < b[j] {
            numbers.push(a[i])?;
            i += 1;
        } else if b[j] < a[i] {
            numbers.push(b[j])?;
            j += 1;
        } else {
            i += 1;
            j += 1;
        }
    }
    numbers.extend_from_slice(&a[i..])?;
    numbers.extend_from_slice(&b[j..])?;
    Ok(numbers)
}
