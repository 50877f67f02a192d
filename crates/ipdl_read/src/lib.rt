//! Reading a document from its tree.
#![tactic(auto)]

mod documents;
mod earlier;
mod interfaces;
mod items;
mod names;
mod rules;
mod seen;
mod steps;
mod symbols;
mod uses;

pub use documents::read_document;
