//! Values of zeros.

ghost use Rattle.std.specs.Prelude.{◌≡◌, ◌≤◌, []};
ghost use Rattle.ipdl_term.specs.Interpretations.{zeros};

use ipdl_base::Bits;

// So many zeros.
pub(crate) fn zeros(width: u8) -> Bits
    requires { width ≤ 128 }
    ensures { result ≡ zeros width }
{
    Bits::new(width, 0).unwrap()
}

// The value with no bits.
pub(crate) fn nothing() -> Bits
    ensures { result ≡ [] }
{
    zeros(0)
}
