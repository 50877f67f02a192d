//! Documents as the program holds them: symbols, and items in their order.

use ipdl_base::{List, Name};
use ipdl_sig::Sig;
use ipdl_term::{Interface, Proto, Step};

/// A protocol with its interface.
#[derive(Drop)]
pub struct ProtocolItem {
    pub name: Name,
    pub interface: Interface,
    pub body: Proto,
}

/// An assumption: two earlier protocols, which scripts may exchange.
#[derive(Drop)]
pub struct AssumeItem {
    pub name: Name,
    pub left: Name,
    pub right: Name,
}

/// A theorem: two earlier protocols, and a script that starts at each.
#[derive(Drop)]
pub struct TheoremItem {
    pub name: Name,
    pub left: Name,
    pub right: Name,
    pub left_steps: List<Step>,
    pub right_steps: List<Step>,
}

/// An item of a document. A symbol is named by its number in the signature.
#[derive(Drop)]
pub enum Item {
    Symbol(u32),
    Protocol(ProtocolItem),
    Assumption(AssumeItem),
    Theorem(TheoremItem),
}

/// A document: its symbols, and all of its items in order. No two items have one name.
#[derive(Drop)]
pub struct Document {
    /// The version of the language, 1.
    pub version: u32,
    pub sig: Sig,
    pub items: List<Item>,
}
