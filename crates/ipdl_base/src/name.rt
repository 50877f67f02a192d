//! Names of channels, symbols, binders and items, and which texts are names.

ghost use Rattle.std.specs.Cmp.{partial_equiv_from_equiv};
ghost use Rattle.std.specs.Cmp.Lexicographic.{slice_cmp, bytes_decides, nat_list_eq_equiv, nat_list_cmp_total, texts_ties, texts_po};
ghost use Rattle.std.specs.Hash as fed;
ghost use Rattle.std.specs.Ordering.{nat_cmp};
ghost use Rattle.std.specs.Prelude.{◌≡◌, ◌↔◌, Some, false, if◌then◌else◌, refl, IsTrue, IfOk, OnOk, IsErrOf, bytes_eq};
ghost use Rattle.std.specs.Str.{chars};
ghost use Rattle.std.proofs.Common.{ap};
ghost use Rattle.ipdl_base.specs.Names.{starts_name, continues_name, spells_name, is_name};

use crate::memory::NoMemory;
use std::alloc::Global;
use std::cmp::Ordering;
use std::hash::{Hash, Hasher};
use std::marker::Model;
use std::rc::RcStr;
use unicode_ident::{is_xid_continue, is_xid_start};

/// Why a text was not read as a name.
#[derive(Clone, Copy, Debug, PartialEq, Eq)]
pub enum NameFault {
    /// The text is no name.
    Bad,
    /// Memory ran out.
    Memory,
}

/// A text of at most 64 bytes that spells a name: its first character may start an identifier of
/// Unicode or is `_`, and the later ones may continue one. Contracts see a name as the list of
/// its bytes, and names are compared and ordered by these. Copies share the memory of the text.
#[derive(Debug, Drop)]
pub struct Name {
    text: RcStr,
}

impl Model for Name {
    ghost use Rattle.std.specs.Prelude.{List, ℕ, IsTrue};
    ghost use Rattle.std.specs.Rc.{rc_str_bytes};
    ghost use Rattle.ipdl_base.specs.Names.{is_name};

    ghost Value = { List ℕ };

    ghost view = { λ n. rc_str_bytes n.text };

    ghost invariant = { λ n. IsTrue (is_name (rc_str_bytes n.text)) };
}

// Whether the character may stand at a place of a name: its first one, or a later one.
fn fits_name(started: bool, c: char) -> bool
    ensures { result ≡ (if started then continues_name c else starts_name c) }
{
    if started {
        is_xid_continue(c)
    } else {
        is_xid_start(c) || c == '_'
    }
}

// Whether the characters of the text spell a name, of whatever length.
fn spells_name(text: &str) -> bool
    ensures { result ≡ spells_name (chars text.now) }
{
    let mut started = false;
    for c in text.chars() {
        if !fits_name(started, c) {
            return false;
        }
        started = true;
    }
    started
}

// The greatest number of bytes of a name.
const LONGEST: usize = 64;

// Whether the text is a name.
fn is_name(text: &str) -> bool
    ensures { result ≡ is_name text.now }
{
    text.len() <= LONGEST && spells_name(text)
}

impl Name {
    /// The name that the text spells.
    pub fn read(alloc: Global, text: &str) -> Result<Name, NameFault>
        ensures ok { IfOk result (λ n. n ≡ text.now) }
        ensures name { OnOk result (IsTrue (is_name text.now)) }
        ensures bad { IsErrOf result NameFault.Bad ↔ (is_name text.now ≡ false) }
    {
        if !is_name(text) {
            return Err(NameFault::Bad);
        }
        match Name::of_text(alloc, text) {
            Ok(name) => Ok(name),
            Err(_) => Err(NameFault::Memory),
        }
    }

    /// The name of a text that a caller knows to be one. The text is not tested again.
    pub fn of_text(alloc: Global, text: &str) -> Result<Name, NoMemory>
        requires { IsTrue (is_name text.now) }
        ensures { IfOk result (λ n. n ≡ text.now) }
    {
        let text = RcStr::from_str(alloc, text)?;
        Ok(Name { text })
    }

    /// The name's text.
    pub fn text(&self) -> &str
        ensures value { result.now ≡ self.now }
        ensures name { IsTrue (is_name self.now) }
    {
        self.text.as_str()
    }

    /// The same name. It takes memory of its own only where the text has as many owners as can be
    /// counted.
    pub fn copy(&self, alloc: Global) -> Result<Name, NoMemory>
        ensures { IfOk result (λ n. n ≡ self.now) }
    {
        match self.text.clone() {
            Ok(text) => Ok(Name { text }),
            Err(_) => Name::of_text(alloc, self.text()),
        }
    }
}

impl PartialEq for Name {
    ghost eq = { bytes_eq };

    ghost laws = { partial_equiv_from_equiv nat_list_eq_equiv };

    fn eq(&self, other: &Name) -> bool
        ensures value { result ≡ bytes_eq self.now other.now }
        ensures same { IsTrue result ↔ (self.now ≡ other.now) }
    {
        self.text.as_str() == other.text.as_str()
    }
}

impl Eq for Name {
    ghost laws = { nat_list_eq_equiv };
}

impl PartialOrd for Name {
    ghost partial_cmp = { λ a b. Some (slice_cmp nat_cmp a b) };

    ghost laws = { texts_po };

    fn partial_cmp(&self, other: &Name) -> Option<Ordering> {
        Some(self.cmp(other))
    }
}

impl Ord for Name {
    ghost cmp = { slice_cmp nat_cmp };

    ghost total = { nat_list_cmp_total };

    ghost matches_partial_cmp = { λ a b. refl };

    ghost matches_eq = { texts_ties };

    fn cmp(&self, other: &Name) -> Ordering {
        self.text.as_str().cmp(other.text.as_str())
    }
}

impl Hash for Name {
    ghost hash_input = { λ n. fed.str n };

    ghost respects_eq = { λ a b same. ap fed.str ((bytes_decides a b).0 same) };

    fn hash<H: Hasher>(&self, state: &mut H) {
        self.text.as_str().hash(state);
    }
}
