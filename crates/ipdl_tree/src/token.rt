//! Tokens that are open: which character goes on with one, and the tree that one gives.
ghost use Rattle.std.specs.Prelude.{◌≡◌, ℕ, ◌+◌, ◌*◌, ◌<◌, ◌≤◌, ◌^◌, ◌++◌, ◌∷◌, [], List, length, drop, IsTrue, IfOk, MatchResult, Some, None, option_map};
ghost use Rattle.std.specs.Option.{SomeIff};
ghost use Rattle.std.specs.Char.{encode_utf8};
ghost use Rattle.ipdl_base.specs.Names.{is_name};
ghost use Rattle.ipdl_tree.specs.Faults.{cause_of};
ghost use Rattle.ipdl_tree.specs.Reading.{continues, refusal_within, tree_of, extended};
ghost use Rattle.ipdl_tree.specs.ReaderViews.{token_view, IsTokenAfter};
ghost use Rattle.ipdl_tree.specs.Views.{located};

use crate::character::{continues_name, is_digit};
use crate::fault::SpellCause;
use crate::tree::{Node, Tree};
use ipdl_base::{Bits, Name, NoMemory, Pos};
use std::alloc::Global;

// The most bytes of a name.
const LONGEST_NAME: usize = 64;

// A token that is open, or a comment. A name is the text from its start on.
#[derive(Clone, Copy)]
pub(crate) enum OpenToken {
    Nothing,
    Comment,
    Name { start: u32 },
    Number { start: u32, value: u32 },
    Literal { start: u32, bits: Bits },
}

// Whether the character goes on with the token.
pub(crate) fn continues(token: OpenToken, c: char) -> bool
    ensures { (front : List ℕ) → result ≡ continues (token_view front token) c }
{
    match token {
        OpenToken::Nothing | OpenToken::Comment => false,
        OpenToken::Name { .. } => continues_name(c),
        OpenToken::Number { .. } => is_digit(c),
        OpenToken::Literal { .. } => c == '0' || c == '1',
    }
}

// No bits.
#[tactic(auto, unfolding(ipdl_base::specs::Bits::bits_of))]
pub(crate) fn no_bits() -> Bits
    ensures { result ≡ [] }
{
    match Bits::new(0, 0) {
        Some(bits) => bits,
        None => unreachable!(),
    }
}

#[tactic(auto, unfolding(ipdl_base::specs::Bits::bits_of))]
fn one_bit(bit: bool) -> Bits
    ensures { result ≡ bit ∷ [] }
{
    match Bits::new(1, if bit { 1 } else { 0 }) {
        Some(bits) => bits,
        None => unreachable!(),
    }
}

// The bits and one more.
fn with_bit(bits: Bits, bit: bool) -> Option<Bits>
    ensures { SomeIff result (length bits < 128) (bits ++ bit ∷ []) }
{
    bits.cat(one_bit(bit))
}

// The number with one more digit, where its first one is not zero and it fits.
fn with_digit(value: u32, digit: u32) -> Option<u32>
    requires { digit < 10 }
    ensures { SomeIff result ((0 < value) × (10 * value + digit < 2 ^ 32)) (10 * value + digit) }
{
    if value == 0 {
        return None;
    }
    value.checked_mul(10)?.checked_add(digit)
}

// The open token after the text with a character that goes on with it.
pub(crate) fn extended(token: OpenToken, front: &str, c: char) -> Result<OpenToken, SpellCause>
    requires small { length front.now < 2 ^ 32 }
    requires continues { IsTrue (continues (token_view front.now token) c) }
    requires token { IsTokenAfter front.now token }
    ensures extended { MatchResult result
        (λ t. (refusal_within (token_view front.now token) c ≡ None) × (token_view (front.now ++ encode_utf8 c) t ≡ extended (token_view front.now token) c))
        (λ cause. refusal_within (token_view front.now token) c ≡ Some (cause_of cause)) }
{
    match token {
        OpenToken::Nothing | OpenToken::Comment => Ok(token),
        OpenToken::Name { start } => {
            if front.len() - start as usize + c.len_utf8() <= LONGEST_NAME {
                Ok(token)
            } else {
                Err(SpellCause::BadName)
            }
        }
        OpenToken::Number { start, value } => match with_digit(value, c as u32 - '0' as u32) {
            Some(value) => Ok(OpenToken::Number { start, value }),
            None => Err(SpellCause::BadByte),
        },
        OpenToken::Literal { start, bits } => match with_bit(bits, c == '1') {
            Some(bits) => Ok(OpenToken::Literal { start, bits }),
            None => Err(SpellCause::BadByte),
        },
    }
}

// The tree of an open token that ends after the text.
pub(crate) fn tree_of(
    alloc: Global,
    front: &str,
    token: OpenToken,
) -> Result<Option<Tree>, NoMemory>
    requires { IsTokenAfter front.now token }
    ensures { IfOk result (λ tree. option_map located tree ≡ tree_of (token_view front.now token)) }
{
    let (start, node) = match token {
        OpenToken::Nothing | OpenToken::Comment => return Ok(None),
        OpenToken::Name { start } => (start, Node::Word(name_of(alloc, front, start)?)),
        OpenToken::Number { start, value } => (start, Node::Number(value)),
        OpenToken::Literal { start, bits } => (start, Node::Literal(bits)),
    };
    Ok(Some(Tree {
        pos: Pos(start),
        node,
    }))
}

// The name that ends the text.
fn name_of(alloc: Global, front: &str, start: u32) -> Result<Name, NoMemory>
    requires within { start ≤ length front.now }
    requires name { IsTrue (is_name (drop start front.now)) }
    ensures { IfOk result (λ n. n ≡ drop start front.now) }
{
    Name::of_text(alloc, &front[start as usize..])
}
