//! The laws of the meaning of terms and protocols. Each is a function that does nothing and has the
//! law as its contract, so that the check proves it.
#![tactic(auto)]

pub mod assignments;
pub mod equality;
pub mod meaning;
pub mod nontrivial;
pub mod places;
pub mod renaming;
pub mod terms;
pub mod told_apart;
