//! The data of a tree: a word, a number, a literal or a group, each with its byte offset.
use ipdl_base::{Bits, Name, Pos};

/// A tree, with the byte offset of its first character in the text that it was read from.
#[cycle(tree)]
#[derive(Drop)]
pub struct Tree {
    pub pos: Pos,
    pub node: Node,
}

/// A token, or the trees between two parentheses.
#[cycle(tree)]
#[derive(Drop)]
pub enum Node {
    Word(Name),
    Number(u32),
    Literal(Bits),
    Group(Vec<Tree>),
}
