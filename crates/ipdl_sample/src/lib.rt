//! The sample document of a number: as many theorems, each with its two protocols.
#![tactic(auto)]

mod sample;
#[cfg(test)]
mod tests;
mod worked;

pub use sample::sample_document;
pub use worked::one_theorem;
