//! The functions that the tables are.

ghost use Rattle.std.specs.Prelude.{◌≡◌, ◌^◌, ◌<◌, length, slice_get, Some};
ghost use Rattle.ipdl_base.specs.Bits.{number_of};
ghost use Rattle.ipdl_sig.specs.Symbols.{IsSymbol, IsTable};
ghost use Rattle.ipdl_term.specs.Interpretations.{function_value, symbol_value, entry_value, table_entries, zeros};
ghost use Rattle.ipdl_truth.specs.Tables.{function_of, tables_of};
ghost use Rattle.ipdl_typing.specs.Signatures.{symbol_of, signature_of};

use crate::zeros::{nothing, zeros};
use ipdl_base::Bits;
use ipdl_sig::{Sig, Symbol};

// The value of a table at an argument of its width.
fn table_value(from: u8, to: u8, values: &[Bits], argument: Bits) -> Bits
    requires table { IsTable from to values.now }
    requires width { length argument ≡ from }
    ensures { result ≡ entry_value (table_entries from 0 values.now) argument (zeros to) }
{
    values[argument.value() as usize]
}

// The value of a symbol's function at an argument.
fn function_value(symbol: &Symbol, argument: Bits) -> Bits
    requires { IsSymbol symbol.now }
    ensures { result ≡ function_value (function_of (symbol_of symbol.now)) argument }
{
    if argument.width() != symbol.from {
        return nothing();
    }
    match &symbol.values {
        None => zeros(symbol.to),
        Some(values) => table_value(symbol.from, symbol.to, values.as_slice(), argument),
    }
}

// The value of the symbol of this number at an argument.
pub(crate) fn symbol_value(sig: &Sig, number: u32, argument: Bits) -> Bits
    ensures { result ≡ symbol_value (tables_of (signature_of sig.now)) number argument }
{
    match sig.symbol(number) {
        Some(symbol) => function_value(symbol, argument),
        None => nothing(),
    }
}
