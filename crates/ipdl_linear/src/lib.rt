//! Linear forms of expressions: of each bit the atoms that it is the sum of, modulo 2, and whether
//! two expressions have the same ones.
#![tactic(auto)]

mod bitwise;
mod comparing;
mod fault;
mod laws;
mod leaves;
mod likeness;
mod merging;
mod node;
mod numbering;
#[cfg(test)]
mod tests;
mod walk;
mod weights;
mod worked;
mod zero_test;

pub use fault::LinearFault;
pub use laws::{linear_forms_are_value, same_forms_same_value};
pub use likeness::{Likeness, same_form};
pub use worked::{a_bit_twice, a_test_of_equality, another_width, exchanged_factors, selections};
