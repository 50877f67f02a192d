//! Items of a document, in reading order.

ghost use Rattle.std.specs.Prelude.{◌≡◌, ℕ, ◌+◌, ◌<◌, ◌^◌, ◌++◌, [], ◌∷◌, true, Some, length, codes, map, IfOk, OnOk, IfErr};
ghost use Rattle.ipdl_term.specs.Steps.{step_of};
ghost use Rattle.ipdl_term.specs.Views.{protocol_of};
ghost use Rattle.ipdl_tree.specs.Trees.{word, group, tree};
ghost use Rattle.ipdl_tree.specs.Views.{located, all_located};
ghost use Rattle.ipdl_forms.specs.Documents.{protocol_entry, assumption_entry, theorem_entry, entry_of, symbols_in};
ghost use Rattle.ipdl_forms.specs.Earlier.{protocol_names};
ghost use Rattle.ipdl_read.specs.Earlier.{earlier_of};
ghost use Rattle.ipdl_forms.specs.Faults.{TellsFirst};
ghost use Rattle.ipdl_forms.specs.Items.{SpellsEntry, body_scope, protocol_form, assume_form, theorem_form, item_faults};
ghost use Rattle.ipdl_forms.specs.Lists.{word_in, is_among};
ghost use Rattle.ipdl_read.specs.Parts.{SpellsNamed, earlier_at, form_faults, named_faults};
ghost use Rattle.ipdl_forms.specs.Protocols.{SpellsProtocol, protocol_faults};
ghost use Rattle.ipdl_forms.specs.Steps.{declared_faults};

use crate::earlier::{Earlier, has_protocol};
use crate::interfaces::read_interface;
use crate::steps::read_side;
use crate::symbols::{read_fun, read_item_name, read_table};
use ipdl_base::{Name, Pos};
use ipdl_forms::{AssumeItem, DocFault, FormCause, Item, ProtocolItem, TheoremItem};
use ipdl_read_terms::{Binders, NameScope, NodeCount, not_a_form, read_proto, word_of};
use ipdl_sig::Sig;
use ipdl_term::Proto;
use ipdl_tree::{Node, Tree};
use std::alloc::Global;

// The name of an earlier protocol.
fn read_side_name(tree: &Tree, alloc: Global, items: &[Item]) -> Result<Name, DocFault>
    ensures word { IfOk result (λ name. word_in (located tree.now) ≡ Some name) }
    ensures declared { IfOk result (λ name. is_among (protocol_names items.now) name ≡ true) }
    ensures clean { OnOk result (declared_faults (protocol_names items.now) (located tree.now) ≡ []) }
    ensures first { IfErr result (λ fault. TellsFirst fault (declared_faults (protocol_names items.now) (located tree.now))) }
{
    let name = word_of(tree)?;
    if !has_protocol(items, name) {
        return Err(DocFault::Form {
            pos: tree.pos,
            cause: FormCause::UnknownName,
        });
    }
    Ok(name.copy(alloc)?)
}

// The body of a protocol.
fn read_body(tree: &Tree, alloc: Global, earlier: &Earlier) -> Result<Proto, DocFault>
    ensures spelled { IfOk result (λ p. SpellsProtocol (body_scope (earlier_of earlier.now)) (protocol_of p) (located tree.now)) }
    ensures clean { OnOk result (protocol_faults (body_scope (earlier_of earlier.now)) (Some 0) (located tree.now) ≡ []) }
    ensures first { IfErr result (λ fault. TellsFirst fault
        (protocol_faults (body_scope (earlier_of earlier.now)) (Some 0) (located tree.now))) }
{
    let scope = NameScope {
        sig: earlier.sig,
        binders: Binders::Outermost,
        in_step: false,
    };
    let mut nodes = NodeCount { counted: Some(0) };
    read_proto(tree, alloc, &scope, &mut nodes)
}

// The protocol that the parts after the head tell.
#[tactic(auto, using(ipdl_read_terms::proofs::Lists::tree_count_located))]
fn read_protocol(
    parts: &[Tree],
    alloc: Global,
    earlier: &Earlier,
    list: Pos,
) -> Result<ProtocolItem, DocFault>
    ensures spelled { IfOk result (λ p. (head : ℕ) → SpellsEntry (earlier_of earlier.now)
        (protocol_entry p.name p.interface (protocol_of p.body))
        (group list.0 (tree (word head (codes "protocol")) (all_located parts.now)))) }
    ensures clean { OnOk result (form_faults (earlier_of earlier.now) protocol_form list.0 (all_located parts.now) ≡ []) }
    ensures first { IfErr result (λ fault. TellsFirst fault
        (form_faults (earlier_of earlier.now) protocol_form list.0 (all_located parts.now))) }
{
    let [name, inputs, outputs, body] = parts else {
        return Err(not_a_form(list));
    };
    let name = read_item_name(name, alloc, earlier)?;
    let interface = read_interface(inputs, outputs, alloc)?;
    let body = read_body(body, alloc, earlier)?;
    Ok(ProtocolItem {
        name,
        interface,
        body,
    })
}

// The name and the two protocols that an assumption, and a theorem as well, begins with.
fn read_named(
    name: &Tree,
    left: &Tree,
    right: &Tree,
    alloc: Global,
    earlier: &Earlier,
) -> Result<AssumeItem, DocFault>
    ensures spelled { IfOk result (λ a. SpellsNamed (earlier_of earlier.now) a.name a.left a.right (located name.now) (located left.now) (located right.now)) }
    ensures clean { OnOk result (named_faults (earlier_of earlier.now) (located name.now) (located left.now) (located right.now) ≡ []) }
    ensures first { IfErr result (λ fault. TellsFirst fault
        (named_faults (earlier_of earlier.now) (located name.now) (located left.now) (located right.now))) }
{
    let name = read_item_name(name, alloc, earlier)?;
    let left = read_side_name(left, alloc, earlier.items)?;
    let right = read_side_name(right, alloc, earlier.items)?;
    Ok(AssumeItem { name, left, right })
}

// The assumption that the parts after the head tell.
#[tactic(auto, using(ipdl_read_terms::proofs::Lists::tree_count_located))]
fn read_assumption(
    parts: &[Tree],
    alloc: Global,
    earlier: &Earlier,
    list: Pos,
) -> Result<AssumeItem, DocFault>
    ensures spelled { IfOk result (λ a. (head : ℕ) → SpellsEntry (earlier_of earlier.now)
        (assumption_entry a.name a.left a.right)
        (group list.0 (tree (word head (codes "assume")) (all_located parts.now)))) }
    ensures clean { OnOk result (form_faults (earlier_of earlier.now) assume_form list.0 (all_located parts.now) ≡ []) }
    ensures first { IfErr result (λ fault. TellsFirst fault
        (form_faults (earlier_of earlier.now) assume_form list.0 (all_located parts.now))) }
{
    let [name, left, right] = parts else {
        return Err(not_a_form(list));
    };
    read_named(name, left, right, alloc, earlier)
}

// The theorem that the parts after the head tell.
#[tactic(auto, using(ipdl_read_terms::proofs::Lists::tree_count_located))]
fn read_theorem(
    parts: &[Tree],
    alloc: Global,
    earlier: &Earlier,
    list: Pos,
) -> Result<TheoremItem, DocFault>
    ensures spelled { IfOk result (λ t. (head : ℕ) → SpellsEntry (earlier_of earlier.now)
        (theorem_entry t.name t.left t.right (map step_of t.left_steps) (map step_of t.right_steps))
        (group list.0 (tree (word head (codes "theorem")) (all_located parts.now)))) }
    ensures clean { OnOk result (form_faults (earlier_of earlier.now) theorem_form list.0 (all_located parts.now) ≡ []) }
    ensures first { IfErr result (λ fault. TellsFirst fault
        (form_faults (earlier_of earlier.now) theorem_form list.0 (all_located parts.now))) }
{
    let [name, left, right, lefts, rights] = parts else {
        return Err(not_a_form(list));
    };
    let AssumeItem { name, left, right } = read_named(name, left, right, alloc, earlier)?;
    let left_steps = read_side(lefts, alloc, earlier, "left", 0)?;
    let before = left_steps.as_slice().len();
    let right_steps = read_side(rights, alloc, earlier, "right", before)?;
    Ok(TheoremItem {
        name,
        left,
        right,
        left_steps,
        right_steps,
    })
}

// The item of a list with the name in front, each at its offset.
fn read_form(
    parts: &[Tree],
    alloc: Global,
    sig: &mut Sig,
    items: &[Item],
    list: Pos,
    head: Pos,
    name: &Name,
) -> Result<Item, DocFault>
    requires few { length sig.old + 1 < 2 ^ 32 }
    ensures spelled { IfOk result (λ item. SpellsEntry (earlier_at sig.old items.now) (entry_of sig.new item)
        (group list.0 (tree (word head.0 name.now) (all_located parts.now)))) }
    ensures symbols { IfOk result (λ item. sig.new ≡ sig.old ++ symbols_in (entry_of sig.new item ∷ [])) }
    ensures clean { OnOk result (item_faults (earlier_at sig.old items.now)
        (group list.0 (tree (word head.0 name.now) (all_located parts.now))) ≡ []) }
    ensures first { IfErr result (λ fault. TellsFirst fault (item_faults (earlier_at sig.old items.now)
        (group list.0 (tree (word head.0 name.now) (all_located parts.now))))) }
{
    match name.text() {
        "fun" => read_fun(parts, alloc, sig, items, list),
        "table" => read_table(parts, alloc, sig, items, list),
        "protocol" => {
            let protocol = read_protocol(parts, alloc, &Earlier { sig, items }, list)?;
            Ok(Item::Protocol(protocol))
        }
        "assume" => {
            let assumption = read_assumption(parts, alloc, &Earlier { sig, items }, list)?;
            Ok(Item::Assumption(assumption))
        }
        "theorem" => {
            let theorem = read_theorem(parts, alloc, &Earlier { sig, items }, list)?;
            Ok(Item::Theorem(theorem))
        }
        _ => Err(not_a_form(list)),
    }
}

// The item that the tree spells, after these symbols and items. A symbol is added to the signature.
pub(crate) fn read_item(
    tree: &Tree,
    alloc: Global,
    sig: &mut Sig,
    items: &[Item],
) -> Result<Item, DocFault>
    requires few { length sig.old + 1 < 2 ^ 32 }
    ensures spelled { IfOk result (λ item. SpellsEntry (earlier_at sig.old items.now) (entry_of sig.new item) (located tree.now)) }
    ensures symbols { IfOk result (λ item. sig.new ≡ sig.old ++ symbols_in (entry_of sig.new item ∷ [])) }
    ensures clean { OnOk result (item_faults (earlier_at sig.old items.now) (located tree.now) ≡ []) }
    ensures first { IfErr result (λ fault. TellsFirst fault (item_faults (earlier_at sig.old items.now) (located tree.now))) }
{
    match &tree.node {
        Node::Group(parts) => {
            let [head, parts @ ..] = parts.as_slice() else {
                return Err(not_a_form(tree.pos));
            };
            let Node::Word(name) = &head.node else {
                return Err(not_a_form(tree.pos));
            };
            read_form(parts, alloc, sig, items, tree.pos, head.pos, name)
        }
        Node::Word(_) | Node::Number(_) | Node::Literal(_) => Err(not_a_form(tree.pos)),
    }
}
