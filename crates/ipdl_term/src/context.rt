//! Protocols with one hole.

use crate::protocol::Proto;
use ipdl_base::Name;

/// A protocol with one hole in it.
#[derive(Drop)]
pub enum Ctx {
    /// The hole alone.
    Hole,
    /// The hole is in the left part.
    Left(Box<Ctx>, Proto),
    /// The hole is in the right part.
    Right(Proto, Box<Ctx>),
    /// The hole is below a hidden channel of this width in bits.
    Hide(Name, u8, Box<Ctx>),
}
