//! Chains: the terms that the scripts of a theorem lead through, each of which comes from the one
//! before by a mark; the counts of marks; and the text of a chain.
#![tactic(auto)]

mod chain;
mod laws;
mod texts;

pub use chain::{Chain, Mark};
pub use laws::{
    counts_add_up, links_follow_links, seen_whole, turned_twice, worked_example,
    worked_uses_example,
};
pub use texts::{chain_text, push_accepted_line, push_chain};
