//! The values that every other crate stands on: bits of a width, names, places in a term, lists,
//! the limits, and the error of want of memory. Contracts see each of them as a plain value: bits
//! as the list of the bits, a name as the list of its bytes, a path and a list as the list of
//! what they hold.
#![tactic(auto)]

mod bits;
mod limit;
mod list;
mod memory;
mod name;
mod path;
#[cfg(test)]
mod tests;

pub use bits::{Bits, OutOfBits};
pub use limit::{Limit, Pos};
pub use list::List;
pub use memory::NoMemory;
pub use name::{Name, NameFault};
pub use path::Path;
