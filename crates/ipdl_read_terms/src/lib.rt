//! Reading the terms of a document from their trees: expressions, reactions, protocols, and the
//! words, numbers, ports and paths in them.
#![tactic(auto)]

mod binders;
mod counting;
mod expressions;
mod paths;
mod ports;
mod protocols;
mod reactions;
mod scope;
mod words;

pub use binders::Binders;
pub use counting::NodeCount;
pub use expressions::read_expr;
pub use paths::{headed_list, list_parts, parts_after, read_count, read_path};
pub use protocols::read_proto;
pub use reactions::read_react;
pub use scope::NameScope;
pub use words::{not_a_form, read_name, read_number, read_width, word_of};
