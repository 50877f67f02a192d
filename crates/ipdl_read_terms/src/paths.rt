//! Numbers, lists and paths, in reading order.

ghost use Rattle.std.specs.Prelude.{◌≡◌, [], true, None, Some, IfOk, OnOk, OnErr, IfErr};
ghost use Rattle.ipdl_tree.specs.Trees.{offset_of};
ghost use Rattle.ipdl_tree.specs.Views.{located, all_located};
ghost use Rattle.ipdl_forms.specs.declared.fault.FormCause.TheVariants.{NotAForm};
ghost use Rattle.ipdl_forms.specs.Faults.{TellsFirst, form_fault};
ghost use Rattle.ipdl_forms.specs.Lists.{number_in, is_list, parts_of, head_of, operands};
ghost use Rattle.ipdl_forms.specs.Steps.{SpellsPath, number_faults, list_faults, headed_faults, path_faults};

use crate::words::not_a_form;
use ipdl_base::{Name, Path};
use ipdl_forms::DocFault;
use ipdl_tree::{Node, Tree};
use std::alloc::Global;

/// The number that the tree is, however great.
pub fn read_count(tree: &Tree) -> Result<u32, DocFault>
    ensures value { IfOk result (λ n. number_in (located tree.now) ≡ Some n) }
    ensures clean { OnOk result (number_faults (located tree.now) ≡ []) }
    ensures first { IfErr result (λ fault. TellsFirst fault (number_faults (located tree.now))) }
{
    match &tree.node {
        Node::Number(number) => Ok(*number),
        Node::Word(_) | Node::Literal(_) | Node::Group(_) => Err(not_a_form(tree.pos)),
    }
}

/// The parts of the list that the tree is.
pub fn list_parts(tree: &Tree) -> Result<&[Tree], DocFault>
    ensures list { OnOk result (is_list (located tree.now) ≡ true) }
    ensures parts { IfOk result (λ parts. parts_of (located tree.now) ≡ all_located parts.now) }
    ensures offset { OnOk result (offset_of (located tree.now) ≡ tree.now.pos.0) }
    ensures clean { OnOk result (list_faults (located tree.now) ≡ []) }
    ensures first { IfErr result (λ fault. TellsFirst fault (list_faults (located tree.now))) }
{
    match &tree.node {
        Node::Group(parts) => Ok(parts.as_slice()),
        Node::Word(_) | Node::Number(_) | Node::Literal(_) => Err(not_a_form(tree.pos)),
    }
}

/// The word in front of the list that the tree is, and the parts after it.
pub fn headed_list(tree: &Tree) -> Result<(&Name, &[Tree]), DocFault>
    ensures head { IfOk result (λ r. head_of (located tree.now) ≡ Some r.0.now) }
    ensures operands { IfOk result (λ r. operands (located tree.now) ≡ all_located r.1.now) }
    ensures offset { offset_of (located tree.now) ≡ tree.now.pos.0 }
    ensures headless { OnErr result (head_of (located tree.now) ≡ None) }
    ensures first { IfErr result (λ fault. fault ≡ form_fault NotAForm tree.now.pos.0) }
{
    let Node::Group(parts) = &tree.node else {
        return Err(not_a_form(tree.pos));
    };
    let [head, operands @ ..] = parts.as_slice() else {
        return Err(not_a_form(tree.pos));
    };
    match &head.node {
        Node::Word(name) => Ok((name, operands)),
        Node::Number(_) | Node::Literal(_) | Node::Group(_) => Err(not_a_form(tree.pos)),
    }
}

/// The parts after the word that the list begins with.
pub fn parts_after<'a>(tree: &'a Tree, word: &str) -> Result<&'a [Tree], DocFault>
    ensures head { OnOk result (head_of (located tree.now) ≡ Some word.now) }
    ensures operands { IfOk result (λ parts. operands (located tree.now) ≡ all_located parts.now) }
    ensures clean { OnOk result (headed_faults word.now (located tree.now) ≡ []) }
    ensures first { IfErr result (λ fault. TellsFirst fault (headed_faults word.now (located tree.now))) }
{
    let (head, parts) = headed_list(tree)?;
    if head.text() != word {
        return Err(not_a_form(tree.pos));
    }
    Ok(parts)
}

/// The path that the tree spells.
pub fn read_path(tree: &Tree, alloc: Global) -> Result<Path, DocFault>
    ensures spelled { IfOk result (λ path. SpellsPath path (located tree.now)) }
    ensures clean { OnOk result (path_faults (located tree.now) ≡ []) }
    ensures first { IfErr result (λ fault. TellsFirst fault (path_faults (located tree.now))) }
{
    let parts = list_parts(tree)?;
    let mut path = Path::root(alloc);
    for part in parts {
        let child = read_count(part)?;
        path.push(child)?;
    }
    Ok(path)
}
