//! Documents: which trees spell one, the tests that a tree is to pass, and the laws that tie both.
#![tactic(auto)]

mod document;
mod fault;
mod laws;
mod lookup;

pub use document::{AssumeItem, Document, Item, ProtocolItem, TheoremItem};
pub use fault::{DocFault, FormCause};
pub use laws::{
    clean_is_spelled, document_is_read, first_fault_is_told, offsets_are_free, one_document,
    one_term, outer_names, spelled_is_clean,
};
