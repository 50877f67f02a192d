//! Interfaces: which channels a protocol reads from outside, and which it writes.

use ipdl_base::{List, Name};

/// A channel of an interface, with its width in bits.
#[derive(Drop, PartialEq, Eq)]
pub struct Port {
    pub name: Name,
    pub width: u8,
}

/// The channels that a protocol reads from outside, and those that it writes.
#[derive(Drop)]
pub struct Interface {
    pub inputs: List<Port>,
    pub outputs: List<Port>,
}
