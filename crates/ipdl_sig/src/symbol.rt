//! A function symbol, and what is wrong with one that no signature may have.

ghost use Rattle.std.specs.Prelude.{◌≡◌, ◌≢◌, ◌==◌, Some, not, length, map, find, slice_get, IfNone};
ghost use Rattle.ipdl_sig.specs.Symbols.{IsSymbol, greatest_argument, first_bad_width, shape_faults};

use crate::fault::SigFault;
use ipdl_base::{Bits, List, Name};

// The greatest width of an argument or a result.
const GREATEST_WIDTH: u8 = 128;

// The greatest width of a table's argument.
const GREATEST_TABLE_WIDTH: u8 = 12;

/// A function symbol: its name, the widths of its argument and its result, and of a table all its
/// values.
#[derive(Drop)]
pub struct Symbol {
    /// The name, by which terms call the symbol.
    pub name: Name,
    /// The width of the argument, in bits.
    pub from: u8,
    /// The width of the result, in bits.
    pub to: u8,
    /// None for an abstract symbol. Of a table its values: the value at index i is that of the
    /// argument whose bits are the number i.
    pub values: Option<List<Bits>>,
}

// The width of the first value that has another one.
fn other_width(values: &[Bits], width: u8) -> Option<u8>
    ensures { result ≡ find (λ w. not (w == width)) (map length values.now) }
{
    values
        .iter()
        .map(|bits| bits.width())
        .find(|got| *got != width)
}

impl Symbol {
    // The greatest width that the argument may have.
    fn greatest_argument(&self) -> u8
        ensures { result ≡ greatest_argument self.now.values }
    {
        match &self.values {
            None => GREATEST_WIDTH,
            Some(_) => GREATEST_TABLE_WIDTH,
        }
    }

    // The first width that is not allowed.
    fn bad_width(&self) -> Option<u8>
        ensures { result ≡ first_bad_width self.now.from self.now.to self.now.values }
    {
        if self.from > self.greatest_argument() {
            return Some(self.from);
        }
        if self.to > GREATEST_WIDTH {
            return Some(self.to);
        }
        match &self.values {
            None => None,
            Some(values) => other_width(values.as_slice(), self.to),
        }
    }

    // Why no signature may have the symbol, whatever its name.
    pub(crate) fn fault(&self) -> Option<SigFault>
        ensures value { result ≡ slice_get (shape_faults self.now) 0 }
        ensures of_shape { result ≢ Some SigFault.Repeated }
        ensures formed { IfNone result (IsSymbol self.now) }
    {
        if let Some(got) = self.bad_width() {
            return Some(SigFault::Width { got });
        }
        let Some(values) = &self.values else {
            return None;
        };
        let want = 1 << self.from;
        let got = u32::try_from(values.as_slice().len()).unwrap_or(u32::MAX);
        if got == want {
            return None;
        }
        Some(SigFault::TableLength { want, got })
    }
}
