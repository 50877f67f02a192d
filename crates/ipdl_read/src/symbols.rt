//! Function symbols, in reading order.

ghost use Rattle.std.specs.Prelude.{◌≡◌, ℕ, ◌+◌, ◌<◌, ◌≤◌, ◌^◌, ◌++◌, [], ◌∷◌, length, codes, IfOk, OnOk, IfErr};
ghost use Rattle.ipdl_tree.specs.Trees.{word, group, tree};
ghost use Rattle.ipdl_tree.specs.Views.{located, all_located};
ghost use Rattle.ipdl_forms.specs.Documents.{entry_of, symbols_in};
ghost use Rattle.ipdl_read.specs.Earlier.{earlier_of};
ghost use Rattle.ipdl_forms.specs.Faults.{TellsFirst};
ghost use Rattle.ipdl_forms.specs.Items.{SpellsEntry, SpellsNewName, AreValues, fun_form, table_form, is_taken, item_name_faults, value_faults, table_faults};
ghost use Rattle.ipdl_forms.specs.Lists.{parts_of, literal_in};
ghost use Rattle.ipdl_read.specs.Parts.{earlier_at, form_faults};

use crate::earlier::{Earlier, has_protocol, has_statement};
use crate::names::is_operator;
use ipdl_base::{Bits, Name, Pos};
use ipdl_forms::{DocFault, FormCause, Item};
use ipdl_read_terms::{not_a_form, read_number, read_width, word_of};
use ipdl_sig::{Sig, SigFault};
use ipdl_tree::{Node, Tree};
use std::alloc::Global;

// The greatest width of a table's argument.
const GREATEST_TABLE_WIDTH: u8 = 12;

// Whether no item may have the name: an operator or an earlier item has it.
fn is_taken(earlier: &Earlier, name: &Name) -> bool
    ensures { result ≡ is_taken (earlier_of earlier.now) name.now }
{
    is_operator(name)
        || earlier.sig.find(name).is_some()
        || has_protocol(earlier.items, name)
        || has_statement(earlier.items, name)
}

// The name of an item.
pub(crate) fn read_item_name(
    tree: &Tree,
    alloc: Global,
    earlier: &Earlier,
) -> Result<Name, DocFault>
    ensures spelled { IfOk result (λ name. SpellsNewName (earlier_of earlier.now) name (located tree.now)) }
    ensures clean { OnOk result (item_name_faults (earlier_of earlier.now) (located tree.now) ≡ []) }
    ensures first { IfErr result (λ fault. TellsFirst fault (item_name_faults (earlier_of earlier.now) (located tree.now))) }
{
    let name = word_of(tree)?;
    if is_taken(earlier, name) {
        return Err(DocFault::Form {
            pos: tree.pos,
            cause: FormCause::Repeated,
        });
    }
    Ok(name.copy(alloc)?)
}

// The abstract symbol that the parts after the head tell.
#[tactic(auto, using(ipdl_read_terms::proofs::Lists::tree_count_located))]
pub(crate) fn read_fun(
    parts: &[Tree],
    alloc: Global,
    sig: &mut Sig,
    items: &[Item],
    list: Pos,
) -> Result<Item, DocFault>
    requires few { length sig.old + 1 < 2 ^ 32 }
    ensures spelled { IfOk result (λ item. (head : ℕ) → SpellsEntry (earlier_at sig.old items.now) (entry_of sig.new item)
        (group list.0 (tree (word head (codes "fun")) (all_located parts.now)))) }
    ensures symbols { IfOk result (λ item. sig.new ≡ sig.old ++ symbols_in (entry_of sig.new item ∷ [])) }
    ensures clean { OnOk result (form_faults (earlier_at sig.old items.now) fun_form list.0 (all_located parts.now) ≡ []) }
    ensures first { IfErr result (λ fault. TellsFirst fault
        (form_faults (earlier_at sig.old items.now) fun_form list.0 (all_located parts.now))) }
{
    let [name, from, to] = parts else {
        return Err(not_a_form(list));
    };
    let name = read_item_name(name, alloc, &Earlier { sig, items })?;
    let from = read_width(from)?;
    let to = read_width(to)?;
    match sig.add_fun(name, from, to) {
        Ok(number) => Ok(Item::Symbol(number)),
        Err(SigFault::Memory) => Err(DocFault::Memory),
        Err(SigFault::Repeated | SigFault::Width { .. } | SigFault::TableLength { .. }) => {
            unreachable!()
        }
    }
}

// The value of a table.
fn read_value(tree: &Tree, width: u8) -> Result<Bits, DocFault>
    ensures value { IfOk result (λ bits. literal_in (located tree.now) ≡ Some bits) }
    ensures wide { IfOk result (λ bits. length bits ≡ width) }
    ensures clean { OnOk result (value_faults width (located tree.now) ≡ []) }
    ensures first { IfErr result (λ fault. TellsFirst fault (value_faults width (located tree.now))) }
{
    let Node::Literal(bits) = &tree.node else {
        return Err(not_a_form(tree.pos));
    };
    if bits.width() != width {
        return Err(DocFault::Form {
            pos: tree.pos,
            cause: FormCause::WrongWidth,
        });
    }
    Ok(*bits)
}

// The values of a table, one for each argument.
fn read_values(tree: &Tree, alloc: Global, from: u8, to: u8) -> Result<Vec<Bits>, DocFault>
    requires { from ≤ 12 }
    ensures spelled { IfOk result (λ values. AreValues to values.items (parts_of (located tree.now))) }
    ensures count { IfOk result (λ values. length values.items ≡ 2 ^ from) }
    ensures clean { OnOk result (table_faults from to (located tree.now) ≡ []) }
    ensures first { IfErr result (λ fault. TellsFirst fault (table_faults from to (located tree.now))) }
{
    let Node::Group(parts) = &tree.node else {
        return Err(not_a_form(tree.pos));
    };
    let parts = parts.as_slice();
    let mut values = Vec::new(alloc);
    for part in parts {
        let value = read_value(part, to)?;
        values.push(value)?;
    }
    if parts.len() != 1usize << from {
        return Err(DocFault::Form {
            pos: tree.pos,
            cause: FormCause::TableLength,
        });
    }
    Ok(values)
}

// The table that the parts after the head tell.
#[tactic(auto, using(ipdl_read_terms::proofs::Lists::tree_count_located))]
pub(crate) fn read_table(
    parts: &[Tree],
    alloc: Global,
    sig: &mut Sig,
    items: &[Item],
    list: Pos,
) -> Result<Item, DocFault>
    requires few { length sig.old + 1 < 2 ^ 32 }
    ensures spelled { IfOk result (λ item. (head : ℕ) → SpellsEntry (earlier_at sig.old items.now) (entry_of sig.new item)
        (group list.0 (tree (word head (codes "table")) (all_located parts.now)))) }
    ensures symbols { IfOk result (λ item. sig.new ≡ sig.old ++ symbols_in (entry_of sig.new item ∷ [])) }
    ensures clean { OnOk result (form_faults (earlier_at sig.old items.now) table_form list.0 (all_located parts.now) ≡ []) }
    ensures first { IfErr result (λ fault. TellsFirst fault
        (form_faults (earlier_at sig.old items.now) table_form list.0 (all_located parts.now))) }
{
    let [name, from, to, values] = parts else {
        return Err(not_a_form(list));
    };
    let name = read_item_name(name, alloc, &Earlier { sig, items })?;
    let from = read_number(from, GREATEST_TABLE_WIDTH)?;
    let to = read_width(to)?;
    let values = read_values(values, alloc, from, to)?;
    match sig.add_table(name, from, to, values) {
        Ok(number) => Ok(Item::Symbol(number)),
        Err(SigFault::Memory) => Err(DocFault::Memory),
        Err(SigFault::Repeated | SigFault::Width { .. } | SigFault::TableLength { .. }) => {
            unreachable!()
        }
    }
}
