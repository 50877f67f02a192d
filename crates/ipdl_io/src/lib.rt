//! Where bytes come from and where they go, each with a count of its faults.
#![tactic(auto)]

mod memory;
mod standard;
mod stream;

pub use memory::{MemSink, MemSource};
pub use standard::{StdSink, StdSource};
pub use stream::{Got, Put, Sink, Source};
