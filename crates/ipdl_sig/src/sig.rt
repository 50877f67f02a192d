//! The signature of a document: its function symbols, found by number and by name.

ghost use Rattle.std.specs.Prelude.{◌≡◌, ◌≢◌, ◌↔◌, ◌+◌, ◌^◌, ◌<◌, [], false, Some, None, length, slice_get, All, AllPairs, IsTrue, IsSome, IsNone, IfSome, IfNone};
ghost use Rattle.std.specs.Option.{option_copied};
ghost use Rattle.ipdl_sig.specs.Symbols.{names_of, has_symbol, symbol_number, IsSymbol, fun_symbol, table_symbol, symbol_refusal, IsAdding};

use crate::fault::SigFault;
use crate::symbol::Symbol;
use indexmap::IndexMap;
use ipdl_base::{Bits, List, Name};
use std::alloc::Global;
use std::marker::Model;

/// Function symbols in the order of their adding, which contracts see as the list of them. A
/// symbol's number is its index in the list, and no two symbols have one name.
#[derive(Drop)]
pub struct Sig {
    // Each symbol under a copy of its name.
    symbols: IndexMap<Name, Symbol>,
    alloc: Global,
}

impl Model for Sig {
    ghost use Rattle.std.specs.Prelude.{List};
    ghost use Rattle.ipdl_sig.specs.declared.symbol.Symbol.{Symbol as Declared};
    ghost use Rattle.indexmap.specs.IndexMap.{values};
    ghost use Rattle.ipdl_sig.specs.Symbols.{KeepsSymbols};

    ghost Value = { List Declared };

    ghost view = { λ s. values s.symbols };

    ghost invariant = { λ s. KeepsSymbols s.symbols.entries };
}

impl Sig {
    /// The signature with no symbol. It takes no memory, and keeps the allocator for what is added.
    pub fn empty(alloc: Global) -> Sig
        ensures { result ≡ [] }
    {
        Sig {
            symbols: IndexMap::new(alloc),
            alloc,
        }
    }

    /// How many symbols there are. The numbers of the symbols are those below it.
    pub fn count(&self) -> u32
        ensures value { result ≡ length self.now }
        ensures bound { length self.now < 2 ^ 32 }

        // What every signature keeps.
        ensures formed { All IsSymbol self.now }
        ensures distinct { AllPairs (λ a b. a.name ≢ b.name) self.now }
    {
        self.symbols.len() as u32
    }

    /// The symbol of the number, which is well formed, as all of a signature are.
    pub fn symbol(&self, number: u32) -> Option<&Symbol>
        ensures value { option_copied result ≡ slice_get self.now number }
        ensures within { IsSome result ↔ (number < length self.now) }
        ensures formed { IfSome result (λ s. IsSymbol s.now) }
        ensures own_number { IfSome result (λ s. symbol_number self.now s.now.name ≡ Some number) }
    {
        match self.symbols.get_index(number as usize) {
            Some((_, symbol)) => Some(symbol),
            None => None,
        }
    }

    /// The number of the symbol of that name.
    pub fn find(&self, name: &Name) -> Option<u32>
        ensures value { result ≡ symbol_number self.now name.now }
        ensures none { IsNone result ↔ (has_symbol self.now name.now ≡ false) }
        ensures found { IfSome result (λ n. slice_get (names_of self.now) n ≡ Some name.now) }
    {
        match self.symbols.get_index_of(name) {
            Some(index) => Some(index as u32),
            None => None,
        }
    }

    /// Adds an abstract symbol, of which nothing but the widths is known. The answer is its
    /// number. A refused name is dropped.
    pub fn add_fun(&mut self, name: Name, from: u8, to: u8) -> Result<u32, SigFault>
        requires { length self.old + 1 < 2 ^ 32 }
        ensures { IsAdding self.old (fun_symbol name from to) result self.new }
    {
        self.add(Symbol {
            name,
            from,
            to,
            values: None,
        })
    }

    /// Adds a table, whose value at index i is that of the argument whose bits are the number i.
    /// The answer is its number. A refused name and its values are dropped.
    pub fn add_table(
        &mut self,
        name: Name,
        from: u8,
        to: u8,
        values: Vec<Bits>,
    ) -> Result<u32, SigFault>
        requires { length self.old + 1 < 2 ^ 32 }
        ensures { IsAdding self.old (table_symbol name from to values.items) result self.new }
    {
        self.add(Symbol {
            name,
            from,
            to,
            values: Some(List::from_vec(values)),
        })
    }

    // Why the symbol is not added: its first fault.
    fn refusal(&self, symbol: &Symbol) -> Option<SigFault>
        ensures value { result ≡ symbol_refusal self.now symbol.now }
        ensures repeated { (result ≡ Some SigFault.Repeated)
            ↔ IsTrue (has_symbol self.now symbol.now.name) }
        ensures new { IfNone result (has_symbol self.now symbol.now.name ≡ false) }
        ensures formed { IfNone result (IsSymbol symbol.now) }
        ensures accepts { has_symbol self.now symbol.now.name ≡ false → IsSymbol symbol.now
            → result ≡ None }
    {
        if self.find(&symbol.name).is_some() {
            return Some(SigFault::Repeated);
        }
        symbol.fault()
    }

    // Adds the symbol. The answer is its number.
    fn add(&mut self, symbol: Symbol) -> Result<u32, SigFault>
        requires { length self.old + 1 < 2 ^ 32 }
        ensures { IsAdding self.old symbol result self.new }
    {
        if let Some(fault) = self.refusal(&symbol) {
            return Err(fault);
        }
        let number = self.count();
        let Ok(key) = symbol.name.copy(self.alloc) else {
            return Err(SigFault::Memory);
        };
        match self.symbols.insert(key, symbol) {
            Ok(_) => Ok(number),
            Err(_) => Err(SigFault::Memory),
        }
    }
}
