//! The names of ports or pairs that were seen, of which none may come again.

ghost use Rattle.std.specs.Prelude.{◌≡◌, [], ◌∷◌, ◌++◌, false, OnOk, IfErr};
ghost use Rattle.ipdl_forms.specs.Lists.{is_among};

use indexmap::IndexMap;
use ipdl_base::Name;
use ipdl_forms::DocFault;
use std::alloc::Global;
use std::marker::Model;

// Names in the order of their adding, which contracts see as the list of them. No two are the same.
#[derive(Drop)]
pub(crate) struct Seen {
    names: IndexMap<Name, ()>,
}

impl Model for Seen {
    ghost use Rattle.std.specs.Prelude.{List, ℕ};
    ghost use Rattle.indexmap.specs.IndexMap.{keys};

    ghost Value = { List (List ℕ) };

    ghost view = { λ s. keys s.names };
}

impl Seen {
    // No name. It takes no memory, and keeps the allocator for what is added.
    pub(crate) fn empty(alloc: Global) -> Seen
        ensures { result ≡ [] }
    {
        Seen {
            names: IndexMap::new(alloc),
        }
    }

    // Whether the name is there.
    pub(crate) fn has(&self, name: &Name) -> bool
        ensures { result ≡ is_among self.now name.now }
    {
        self.names.contains_key(name)
    }

    // Adds a name that is not there.
    pub(crate) fn add(&mut self, name: Name) -> Result<(), DocFault>
        requires { is_among self.old name ≡ false }
        ensures ok { OnOk result (self.new ≡ self.old ++ name ∷ []) }
        ensures err { IfErr result (λ fault. fault ≡ DocFault.Memory) }
    {
        self.names.insert(name, ())?;
        Ok(())
    }
}
