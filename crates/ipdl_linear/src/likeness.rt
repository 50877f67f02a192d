//! Whether two expressions have the same linear forms.

ghost use Rattle.std.specs.Prelude.{◌≡◌, ◌↔◌, ℕ, IfOk, reverse};
ghost use Rattle.ipdl_linear.specs.Likeness.{HaveSameForms, IsLarge, likeness_of, pair_of};
ghost use Rattle.ipdl_term.specs.Typing.{HasWidth};
ghost use Rattle.ipdl_term.specs.Views.{expression_of};
ghost use Rattle.ipdl_typing.specs.Signatures.{signature_of};

use crate::comparing::compare;
use crate::fault::LinearFault;
use crate::weights::weight_of;
use ipdl_sig::Sig;
use ipdl_term::Expr;
use std::alloc::Global;

// The greatest sum of the widths of all subexpressions.
const GREATEST_WEIGHT: u64 = 8_192;

/// Whether two expressions have the same linear forms.
#[derive(Clone, Copy, Debug, PartialEq, Eq)]
pub enum Likeness {
    /// They have, bit by bit.
    Same,
    /// They have not. This is the first bit whose forms differ, or the smaller width where the widths
    /// differ and all bits that both have agree.
    Differ { bit: u8 },
}

/// Whether the two expressions have the same linear forms, bit by bit. `widths` are those of the
/// binders, from the outermost. Equal atoms and equal forms are kept once, so that time and memory
/// are bounded by the square of the size.
pub fn same_form(
    alloc: Global,
    sig: &Sig,
    widths: &[u8],
    left: &Expr,
    right: &Expr,
) -> Result<Likeness, LinearFault>
    requires left { (w : ℕ) × HasWidth (signature_of sig.now) (reverse widths.now)
        (expression_of left.now) w }
    requires right { (w : ℕ) × HasWidth (signature_of sig.now) (reverse widths.now)
        (expression_of right.now) w }
    ensures large { let p = pair_of sig.now widths.now left.now right.now in
        (bits : ℕ) → (result ≡ Err (LinearFault.Large bits)) ↔ IsLarge p bits }
    ensures likeness { let p = pair_of sig.now widths.now left.now right.now in
        IfOk result (λ answer. answer ≡ likeness_of p) }
    ensures same { let p = pair_of sig.now widths.now left.now right.now in
        IfOk result (λ answer. (answer ≡ Likeness.Same) ↔ HaveSameForms p) }
{
    let bits = weight_of(sig, widths, left, right);
    if bits > GREATEST_WEIGHT {
        return Err(LinearFault::Large { bits });
    }
    Ok(compare(alloc, sig, widths, left, right)?)
}
