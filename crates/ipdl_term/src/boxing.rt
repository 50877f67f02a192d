//! Terms that were made, in boxes of their own.

ghost use Rattle.std.specs.Prelude.{◌≡◌, IfOk, Ok};

use ipdl_base::NoMemory;
use std::alloc::Global;

/// The made term in a box, unless memory ran out before or does now. Where a function makes each
/// part of a term by this, a part that fails leaves boxes to be dropped and nothing else.
pub fn boxed<T: Drop>(alloc: Global, made: Result<T, NoMemory>) -> Result<Box<T>, NoMemory>
    ensures { IfOk result (λ held. made ≡ Ok held.value) }
{
    Ok(Box::new(alloc, made?)?)
}
