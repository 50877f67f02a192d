//! Symbols: adding them, and finding them by number and by name.

use ipdl_base::{Bits, Name};
use ipdl_sig::{Sig, SigFault};
use std::alloc::Global;

// What adding a function to width 4 answers, unless memory ran out.
fn added(sig: &mut Sig, alloc: Global, text: &str, from: u8) -> Option<Result<u32, SigFault>> {
    let name = Name::read(alloc, text).ok()?;
    if sig.count() > 100 {
        return None;
    }
    Some(sig.add_fun(name, from, 4))
}

// What adding a table of two values of one bit answers, unless memory ran out.
fn added_table(sig: &mut Sig, alloc: Global, from: u8) -> Option<Result<u32, SigFault>> {
    let zero = Bits::new(1, 0)?;
    let name = Name::read(alloc, "t").ok()?;
    let values = vec![in alloc; zero, zero].ok()?;
    if sig.count() > 100 {
        return None;
    }
    Some(sig.add_table(name, from, 1, values))
}

// The number of the symbol of this name.
fn found(sig: &Sig, alloc: Global, text: &str) -> Option<u32> {
    sig.find(&Name::read(alloc, text).ok()?)
}

// Whether the first symbol is f, from width 3 to width 4.
fn begins_with_f(sig: &Sig) -> bool {
    match sig.symbol(0) {
        Some(symbol) => symbol.name.text() == "f" && symbol.from == 3 && symbol.to == 4,
        None => false,
    }
}

fn adds_functions(sig: &mut Sig, alloc: Global) -> bool {
    added(sig, alloc, "f", 3) == Some(Ok(0))
        && added(sig, alloc, "f", 129) == Some(Err(SigFault::Repeated))
        && added(sig, alloc, "g", 129) == Some(Err(SigFault::Width { got: 129 }))
        && added(sig, alloc, "g", 128) == Some(Ok(1))
}

fn adds_tables(sig: &mut Sig, alloc: Global) -> bool {
    added_table(sig, alloc, 13) == Some(Err(SigFault::Width { got: 13 }))
        && added_table(sig, alloc, 2) == Some(Err(SigFault::TableLength { want: 4, got: 2 }))
        && added_table(sig, alloc, 1) == Some(Ok(2))
}

#[test]
fn adds_and_finds_symbols(rt: HostRuntime) {
    let alloc = rt.alloc();
    let mut sig = Sig::empty(alloc);
    assert!(rt; adds_functions(&mut sig, alloc) && adds_tables(&mut sig, alloc));
    assert!(rt; begins_with_f(&sig) && sig.symbol(3).is_none());
    assert!(rt; found(&sig, alloc, "t") == Some(2) && found(&sig, alloc, "s").is_none());
}
