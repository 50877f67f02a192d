//! Why a command on an item has no answer.

/// Why a command has no answer.
#[derive(Debug, Drop)]
pub enum CommandFault {
    /// The item is refused, and this is the line that says why.
    Refused(Vec<u8>),
    /// Memory ran out.
    Memory,
}
