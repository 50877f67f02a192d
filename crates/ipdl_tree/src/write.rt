//! Writing of trees: the one spelling of a tree, and of the numbers and literals in it.
ghost use Rattle.std.specs.Prelude.{◌≡◌, ◌<◌, ◌≤◌, ◌++◌, length, map, codes, IfOk, OnOk, None};
ghost use Rattle.std.specs.Fmt.{decimal};
ghost use Rattle.ipdl_base.specs.Bits.{bit};
ghost use Rattle.ipdl_tree.specs.Refusals.{refusal};
ghost use Rattle.ipdl_tree.specs.Spelling.{bit_digit, SpellsSource, tree_text, forest_text, blank_before};
ghost use Rattle.ipdl_tree.specs.Trees.{Located, without_offsets, IsShallow};
ghost use Rattle.ipdl_tree.specs.Views.{located, all_located};
ghost use Rattle.ipdl_tree.specs.WellFormed.{IsWellFormed, AreWellFormed};

use crate::tree::{Node, Tree};
use ipdl_base::{Bits, NoMemory};
use itoa::Buffer;
use std::alloc::Global;

/// The spelling of the tree with one space between two parts and none elsewhere. What reads it
/// again gets the same tree, but for the offsets.
pub fn write_tree(alloc: Global, tree: &Tree) -> Result<Vec<u8>, NoMemory>
    ensures text { IfOk result (λ v. v.items ≡ tree_text (located tree.now)) }
    ensures read_back { IsShallow (located tree.now) → IfOk result
        (λ v. (refusal v.items ≡ None) × ((u : Located) × SpellsSource u v.items × (without_offsets u ≡ without_offsets (located tree.now)))) }
{
    let mut text = Vec::new(alloc);
    push_tree(&mut text, tree)?;
    Ok(text)
}

#[cycle(write)]
fn push_tree(text: &mut Vec<u8>, tree: &Tree) -> Result<(), NoMemory>
    ensures text { OnOk result (text.new.items ≡ text.old.items ++ tree_text (located tree.now)) }
    ensures well_formed { OnOk result (IsWellFormed (located tree.now)) }
{
    match &tree.node {
        Node::Word(name) => {
            text.extend_from_slice(name.text().as_bytes())?;
            Ok(())
        }
        Node::Number(value) => push_number(text, u64::from(*value)),
        Node::Literal(bits) => push_literal(text, *bits),
        Node::Group(parts) => push_group(text, parts),
    }
}

#[cycle(write)]
fn push_group(text: &mut Vec<u8>, parts: &[Tree]) -> Result<(), NoMemory>
    ensures text { OnOk result
        (text.new.items ≡ text.old.items ++ (codes "(" ++ forest_text (all_located parts.now) ++ codes ")")) }
    ensures well_formed { OnOk result (AreWellFormed (all_located parts.now)) }
{
    text.push(b'(')?;
    for (i, part) in parts.iter().enumerate() {
        push_blank_before(text, i)?;
        push_tree(text, part)?;
    }
    text.push(b')')?;
    Ok(())
}

// A blank before each part of a group but the first.
fn push_blank_before(text: &mut Vec<u8>, index: usize) -> Result<(), NoMemory>
    ensures { OnOk result (text.new.items ≡ text.old.items ++ blank_before index) }
{
    if index > 0 {
        text.push(b' ')?;
    }
    Ok(())
}

/// Pushes the decimal digits of a number. Where memory runs out, some of them may have been pushed.
pub fn push_number(text: &mut Vec<u8>, value: u64) -> Result<(), NoMemory>
    ensures { OnOk result (text.new.items ≡ text.old.items ++ decimal value) }
{
    let mut digits = Buffer::new();
    text.extend_from_slice(digits.format(value).as_bytes())?;
    Ok(())
}

// The digit of a bit of the number, the bits being counted from 0 on the right.
fn digit_at(number: u128, index: u8) -> u8
    requires { index < 128 }
    ensures { result ≡ bit_digit (bit number index) }
{
    if (number >> index) % 2 == 1 {
        b'1'
    } else {
        b'0'
    }
}

/// Pushes the spelling of a literal: `#` and a digit for each bit. Where memory runs out, a part of
/// it may have been pushed.
pub fn push_literal(text: &mut Vec<u8>, bits: Bits) -> Result<(), NoMemory>
    ensures text { OnOk result (text.new.items ≡ text.old.items ++ (codes "#" ++ map bit_digit bits)) }
    ensures within { length bits ≤ 128 }
{
    text.push(b'#')?;
    let number = bits.value();
    let width = bits.width();
    for index in 0..width {
        text.push(digit_at(number, width - 1 - index))?;
    }
    Ok(())
}
