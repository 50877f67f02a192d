//! Names that an item, a port or a pair may be given.

ghost use Rattle.std.specs.Prelude.{◌≡◌, [], false, Some, IfOk, OnOk, IfErr};
ghost use Rattle.ipdl_tree.specs.Views.{located};
ghost use Rattle.ipdl_forms.specs.Faults.{TellsFirst};
ghost use Rattle.ipdl_forms.specs.Lists.{is_among, word_in};
ghost use Rattle.ipdl_forms.specs.Operators.{is_operator};
ghost use Rattle.ipdl_forms.specs.Steps.{new_name_faults};

use crate::seen::Seen;
use ipdl_base::Name;
use ipdl_forms::{DocFault, FormCause};
use ipdl_read_terms::word_of;
use ipdl_tree::Tree;
use std::alloc::Global;

// Whether the name is that of an operator on expressions.
pub(crate) fn is_operator(name: &Name) -> bool
    ensures { result ≡ is_operator name.now }
{
    match name.text() {
        "xor" | "and" | "not" | "cat" | "cut" | "eq" | "mux" => true,
        _ => false,
    }
}

// A name that is not among those that were seen.
pub(crate) fn read_new_name(tree: &Tree, alloc: Global, seen: &Seen) -> Result<Name, DocFault>
    ensures word { IfOk result (λ name. word_in (located tree.now) ≡ Some name) }
    ensures new { IfOk result (λ name. is_among seen.now name ≡ false) }
    ensures clean { OnOk result (new_name_faults seen.now (located tree.now) ≡ []) }
    ensures first { IfErr result (λ fault. TellsFirst fault (new_name_faults seen.now (located tree.now))) }
{
    let name = word_of(tree)?;
    if seen.has(name) {
        return Err(DocFault::Form {
            pos: tree.pos,
            cause: FormCause::Repeated,
        });
    }
    Ok(name.copy(alloc)?)
}
