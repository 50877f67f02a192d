//! Documents, in reading order.

ghost use Rattle.std.specs.Prelude.{◌≡◌, [], Some, IfOk, OnOk, IfErr};
ghost use Rattle.ipdl_tree.specs.Trees.{word, group, tree};
ghost use Rattle.ipdl_tree.specs.Views.{located, all_located};
ghost use Rattle.ipdl_forms.specs.Documents.{document_of, symbols_in};
ghost use Rattle.ipdl_forms.specs.Faults.{TellsFirst};
ghost use Rattle.ipdl_forms.specs.Items.{SpellsDocument, AreEntries, nothing_earlier, this_version, version_faults, all_item_faults, document_faults};
ghost use Rattle.ipdl_forms.specs.Lists.{number_in};

use crate::items::read_item;
use ipdl_base::{Limit, List, Name, Pos};
use ipdl_forms::{DocFault, Document};
use ipdl_read_terms::not_a_form;
use ipdl_sig::Sig;
use ipdl_tree::{Node, Tree};
use std::alloc::Global;

// The version of the language.
const VERSION: u32 = 1;

// The tree is the number of the version.
fn read_version(tree: &Tree) -> Result<(), DocFault>
    ensures number { OnOk result (number_in (located tree.now) ≡ Some this_version) }
    ensures clean { OnOk result (version_faults (located tree.now) ≡ []) }
    ensures first { IfErr result (λ fault. TellsFirst fault (version_faults (located tree.now))) }
{
    let Node::Number(number) = &tree.node else {
        return Err(not_a_form(tree.pos));
    };
    if *number != VERSION {
        return Err(not_a_form(tree.pos));
    }
    Ok(())
}

// The document of which the trees are the items.
fn read_items(trees: &[Tree], alloc: Global) -> Result<Document, DocFault>
    ensures version { IfOk result (λ d. d.version ≡ this_version) }
    ensures entries { IfOk result (λ d. AreEntries nothing_earlier (document_of d).entries (all_located trees.now)) }
    ensures symbols { IfOk result (λ d. (document_of d).symbols ≡ symbols_in (document_of d).entries) }
    ensures clean { OnOk result (all_item_faults nothing_earlier 0 (all_located trees.now) ≡ []) }
    ensures first { IfErr result (λ fault. TellsFirst fault (all_item_faults nothing_earlier 0 (all_located trees.now))) }
{
    let mut sig = Sig::empty(alloc);
    let mut items = List::empty(alloc);
    for tree in trees {
        if items.as_slice().len() as u64 >= Limit::Items.number() {
            return Err(DocFault::Over {
                limit: Limit::Items,
                pos: tree.pos,
            });
        }
        let item = read_item(tree, alloc, &mut sig, items.as_slice())?;
        items.push(item)?;
    }
    Ok(Document {
        version: VERSION,
        sig,
        items,
    })
}

// The document of a list with the name in front, each at its offset.
fn read_headed(
    parts: &[Tree],
    alloc: Global,
    list: Pos,
    head: Pos,
    name: &Name,
) -> Result<Document, DocFault>
    ensures spelled { IfOk result (λ d. SpellsDocument (document_of d)
        (group list.0 (tree (word head.0 name.now) (all_located parts.now)))) }
    ensures clean { OnOk result (document_faults
        (group list.0 (tree (word head.0 name.now) (all_located parts.now))) ≡ []) }
    ensures first { IfErr result (λ fault. TellsFirst fault (document_faults
        (group list.0 (tree (word head.0 name.now) (all_located parts.now))))) }
{
    if name.text() != "ipdl" {
        return Err(not_a_form(list));
    }
    let [version, items @ ..] = parts else {
        return Err(not_a_form(list));
    };
    read_version(version)?;
    read_items(items, alloc)
}

/// The document that the tree spells.
pub fn read_document(alloc: Global, tree: &Tree) -> Result<Document, DocFault>
    ensures spelled { IfOk result (λ d. SpellsDocument (document_of d) (located tree.now)) }
    ensures clean { OnOk result (document_faults (located tree.now) ≡ []) }
    ensures first { IfErr result (λ fault. TellsFirst fault (document_faults (located tree.now))) }
{
    match &tree.node {
        Node::Group(parts) => {
            let [head, parts @ ..] = parts.as_slice() else {
                return Err(not_a_form(tree.pos));
            };
            let Node::Word(name) = &head.node else {
                return Err(not_a_form(tree.pos));
            };
            read_headed(parts, alloc, tree.pos, head.pos, name)
        }
        Node::Word(_) | Node::Number(_) | Node::Literal(_) => Err(not_a_form(tree.pos)),
    }
}
