//! Why a symbol is not added to a signature.

/// Why a symbol was not added. Where several causes hold, it is the first in this order.
#[derive(Clone, Copy, Debug, PartialEq, Eq)]
pub enum SigFault {
    /// A symbol of that name is there already.
    Repeated,
    /// A width is not allowed: of an argument above 128, or above 12 for a table, of a result
    /// above 128, or of a value of a table other than that of its result. `got` is the first such
    /// width, in this order.
    Width {
        /// The width, in bits.
        got: u8,
    },
    /// A table has not one value for each argument.
    TableLength {
        /// How many values there have to be.
        want: u32,
        /// How many there are, or the last `u32` where they are more.
        got: u32,
    },
    /// Memory ran out.
    Memory,
}
