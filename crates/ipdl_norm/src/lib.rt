//! Normal forms: the tidy form of a reaction and the shape of a protocol, the calls that make
//! them, and the laws that they mean what they come from.
#![tactic(auto)]

mod change;
mod fault;
mod shape_laws;
mod shaping;
#[cfg(test)]
mod tests;
mod tidy_laws;
mod tidying;
mod worked;

pub use fault::ShapeFault;
pub use shape_laws::{shaped_at_place, shaped_is_equal, shaped_is_typed};
pub use shaping::shape;
pub use tidy_laws::{
    tidied_at_place, tidied_does_the_same, tidied_is_typed, tidied_means_the_same,
};
pub use tidying::tidy;
pub use worked::{repeated_names, shapes, tidy_forms};
