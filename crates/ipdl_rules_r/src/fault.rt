//! Why a rule gives no reaction.

/// Why a rule gives no reaction.
#[derive(Clone, Copy, PartialEq, Eq, Debug)]
pub enum RuleFault {
    /// The reaction has not the left shape of the rule, or the rule is of another kind of terms.
    NoMatch,
    /// The side condition of this number, counted from 1, is the first that fails.
    Side(u8),
    /// The right side would have more than 4,096 nodes.
    Nodes,
    /// Memory ran out.
    Memory,
}
