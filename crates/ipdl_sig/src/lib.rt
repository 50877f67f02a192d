//! Signatures: the function symbols of a document, each with the widths of its argument and its
//! result, and tables with their values. A symbol's number is its index in the order of adding.
#![tactic(auto)]

mod fault;
mod sig;
mod symbol;

pub use fault::SigFault;
pub use sig::Sig;
pub use symbol::Symbol;
