//! The limits, each with its number, and offsets in a source.

ghost use Rattle.std.specs.Prelude.{◌≡◌};
ghost use Rattle.ipdl_base.specs.Limits.{limit_number};

/// An offset in a source: the number of bytes before it.
#[derive(Clone, Copy, Debug, PartialEq, Eq)]
pub struct Pos(pub u32);

/// What is counted and kept within bounds.
#[derive(Clone, Copy, Debug, PartialEq, Eq)]
pub enum Limit {
    /// The bytes of a source.
    Source,
    /// The parentheses that are open at one offset.
    Depth,
    /// The items of a document.
    Items,
    /// The channels of a protocol.
    Channels,
    /// The nodes of a term.
    Nodes,
    /// The steps of a script.
    Steps,
    /// The steps of a whole chain, those of the theorems that it uses among them.
    Chain,
    /// The bytes that are written.
    Output,
    /// The coins that a reaction throws.
    Coins,
}

impl Limit {
    /// The greatest count that is allowed, in the unit that the variant names.
    pub fn number(self) -> u64
        ensures { result ≡ limit_number self }
    {
        match self {
            Limit::Source => 1_048_576,
            Limit::Depth => 200,
            Limit::Items => 512,
            Limit::Channels => 512,
            Limit::Nodes => 4_096,
            Limit::Steps => 2_048,
            Limit::Chain => 8_192,
            Limit::Output => 16_777_216,
            Limit::Coins => 16,
        }
    }
}
