//! Renamings of the channels of an interface, and the protocols and contexts in other names.
#![tactic(auto)]

mod capturing;
mod completing;
mod contexts;
mod embedding;
mod fault;
mod fitting;
mod following;
mod names;
mod renaming;
mod shared;
#[cfg(test)]
mod tests;
mod worked;

pub use capturing::first_captured_target;
pub use completing::complete;
pub use contexts::embed_ctx;
pub use embedding::embed;
pub use fault::{EmbedFault, NoPort};
pub use fitting::{Visible, fits};
pub use following::{follow, follow_below, hidden_around_hole, hidden_around_place};
pub use renaming::Renaming;
pub use shared::SharedPairs;
pub use worked::{
    captured_channels_are_told, channels_that_clash_are_told, pairs_rename_channels,
    unnamed_channels_keep_their_names,
};
