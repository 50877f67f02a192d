//! The network of a closed protocol: its assignments, each read of which names the assignment that
//! writes the channel; and what they write on a tape of coins.
#![tactic(auto)]

mod abstracts;
mod collecting;
mod fault;
mod net;
mod reacting;
mod readings;
mod solving;
mod worked;
mod writers;

pub use fault::{NetFault, SolveFault};
pub use net::Net;
pub use worked::{a_flip_and_its_negation, a_hidden_channel_of_an_outputs_name};
