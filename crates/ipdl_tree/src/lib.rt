//! Trees of words, numbers and literals, and their spelling in bytes.
//!
//! A tree is a name, a number below 2^32, a literal of bits behind `#`, or trees between
//! parentheses. Blanks and comments may stand between tokens; a comment runs from `;` to the end
//! of its line.
#![tactic(auto)]

mod character;
mod fault;
mod groups;
mod laws;
mod read;
mod reader;
mod token;
mod tree;
mod write;

pub use fault::{SpellCause, TreeFault};
pub use laws::{one_tree, refused_where_no_tree, refused_where_stuck, written_is_read};
pub use read::read_tree;
pub use tree::{Node, Tree};
pub use write::{push_literal, push_number, write_tree};
