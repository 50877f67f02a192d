//! Words, numbers and widths, and the fault of a tree that is of no form.

ghost use Rattle.std.specs.Prelude.{◌≡◌, ◌≤◌, [], false, Some, IfOk, OnOk, IfErr};
ghost use Rattle.ipdl_tree.specs.Views.{located};
ghost use Rattle.ipdl_forms.specs.declared.fault.FormCause.TheVariants.{NotAForm};
ghost use Rattle.ipdl_forms.specs.Faults.{TellsFirst, form_fault, word_faults};
ghost use Rattle.ipdl_forms.specs.Lists.{is_among, word_in, number_in};
ghost use Rattle.ipdl_forms.specs.Steps.{new_name_faults};
ghost use Rattle.ipdl_forms.specs.Widths.{SpellsWidth, width_faults, greatest_width};

use ipdl_base::{Name, Pos};
use ipdl_forms::{DocFault, FormCause};
use ipdl_tree::{Node, Tree};
use std::alloc::Global;

// The greatest width, and the greatest number of a `cut`.
const GREATEST_WIDTH: u8 = 128;

/// The fault of a tree that is not of the form that is asked.
pub fn not_a_form(pos: Pos) -> DocFault
    ensures { result ≡ form_fault NotAForm pos.0 }
{
    DocFault::Form {
        pos,
        cause: FormCause::NotAForm,
    }
}

/// The word that the tree is.
pub fn word_of(tree: &Tree) -> Result<&Name, DocFault>
    ensures word { IfOk result (λ name. word_in (located tree.now) ≡ Some name.now) }
    ensures clean { OnOk result (word_faults (located tree.now) ≡ []) }
    ensures first { IfErr result (λ fault. TellsFirst fault (word_faults (located tree.now))) }
{
    match &tree.node {
        Node::Word(name) => Ok(name),
        Node::Number(_) | Node::Literal(_) | Node::Group(_) => Err(not_a_form(tree.pos)),
    }
}

/// A copy of the word that the tree is.
pub fn read_name(tree: &Tree, alloc: Global) -> Result<Name, DocFault>
    ensures word { IfOk result (λ name. word_in (located tree.now) ≡ Some name) }
    ensures clean { OnOk result (word_faults (located tree.now) ≡ []) }
    ensures first { IfErr result (λ fault. TellsFirst fault (word_faults (located tree.now))) }
{
    let name = word_of(tree)?;
    Ok(name.copy(alloc)?)
}

/// The number that the tree is, which is not above the greatest one.
pub fn read_number(tree: &Tree, most: u8) -> Result<u8, DocFault>
    ensures value { IfOk result (λ n. number_in (located tree.now) ≡ Some n) }
    ensures within { IfOk result (λ n. n ≤ most) }
    ensures clean { OnOk result (width_faults most (located tree.now) ≡ []) }
    ensures first { IfErr result (λ fault. TellsFirst fault (width_faults most (located tree.now))) }
{
    match &tree.node {
        Node::Number(number) => match u8::try_from(*number) {
            Ok(width) if width <= most => Ok(width),
            _ => Err(DocFault::Form {
                pos: tree.pos,
                cause: FormCause::WrongWidth,
            }),
        },
        Node::Word(_) | Node::Literal(_) | Node::Group(_) => Err(not_a_form(tree.pos)),
    }
}

/// The width, or the number of a `cut`, that the tree is.
pub fn read_width(tree: &Tree) -> Result<u8, DocFault>
    ensures spelled { IfOk result (λ w. SpellsWidth w (located tree.now)) }
    ensures clean { OnOk result (width_faults greatest_width (located tree.now) ≡ []) }
    ensures first { IfErr result (λ fault. TellsFirst fault (width_faults greatest_width (located tree.now))) }
{
    read_number(tree, GREATEST_WIDTH)
}
