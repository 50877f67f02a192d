//! The terms of the calculus: expressions, reactions, protocols, contexts, interfaces and the
//! steps of scripts; the definitions of what protocols mean and when two are equal; and the calls
//! on terms that need no script. All terms are plain trees.
#![tactic(auto)]

mod boxing;
mod change;
mod context;
mod copy;
mod expression;
mod interface;
mod laws;
mod lift;
mod names;
mod occurs;
mod part;
mod plugging;
mod protocol;
mod put;
mod reaction;
mod same;
mod sets;
mod settling;
mod sizes;
mod step;
mod words;
mod worked;

pub use boxing::boxed;
pub use context::Ctx;
pub use copy::{copy_ctx, copy_expr, copy_part, copy_proto, copy_react};
pub use expression::Expr;
pub use interface::{Interface, Port};
pub use laws::{heading_of_word, rule_of_word_and_arguments, typed_is_within};
pub use lift::{lift_expr, lift_react};
pub use names::Names;
pub use occurs::{has_flip, has_read, uses, uses_in_expr};
pub use part::{Condition, Part};
pub use plugging::{nest, plug};
pub use protocol::Proto;
pub use put::{TermFault, put_expr, put_react};
pub use reaction::React;
pub use sets::{free, must, outs, reads};
pub use settling::{SettleFault, settle, settle_expr, unsettled_in_expr};
pub use sizes::{
    Extent, channels, coins, depth, expr_nodes, measure, nodes, proto_nodes, react_nodes,
};
pub use step::{Dir, Rule, Step};
pub use words::{plain_rule, rule_number, rule_word};
pub use worked::{
    counts_of_a_cancelled_bit, counts_of_a_negated_bit, counts_of_a_pad,
    counts_of_a_shadowed_channel, counts_of_waiting_channels,
};
