//! What `perm` asks of a symbol, found without taking memory.

ghost use Rattle.std.specs.Prelude.{◌≡◌};
ghost use Rattle.std.specs.Option.{option_copied};
ghost use Rattle.ipdl_rules_r.specs.Tables.{all_different, has_value, table_on};
ghost use Rattle.ipdl_typing.specs.Signatures.{signature_of};

use ipdl_base::{Bits, List};
use ipdl_sig::Sig;

// The values of the table from the width to the width that the symbol is.
#[tactic(auto, using(crate::proofs::Found::tables))]
pub(crate) fn table_on(sig: &Sig, symbol: u32, width: u8) -> Option<&List<Bits>>
    ensures { option_copied result ≡ table_on (signature_of sig.now) symbol width }
{
    match sig.symbol(symbol) {
        Some(found) => {
            if found.from != width || found.to != width {
                return None;
            }
            match &found.values {
                Some(values) => Some(values),
                None => None,
            }
        }
        None => None,
    }
}

// Whether the value is among these.
#[tactic(auto, using(crate::proofs::Found::tables))]
fn has_value(values: &[Bits], value: &Bits) -> bool
    ensures { result ≡ has_value values.now value.now }
{
    values.contains(value)
}

// Whether no value stands at two places.
#[tactic(auto, using(crate::proofs::Found::tables))]
pub(crate) fn all_different(values: &[Bits]) -> bool
    ensures { result ≡ all_different values.now }
{
    for (i, value) in values.iter().enumerate() {
        if has_value(&values[i + 1..], value) {
            return false;
        }
    }
    true
}
