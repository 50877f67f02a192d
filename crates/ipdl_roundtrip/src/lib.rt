//! What is printed is read back: laws over the two.
#![tactic(auto)]

mod laws;

pub use laws::{
    shown_document_is_read, shown_document_is_read_back, shown_is_read, shown_is_read_back,
};
