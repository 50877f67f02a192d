//! Places in protocols: the part at a place with what is around it, the protocol with another part
//! there, and the context of a place. A place is a list of child numbers.
#![tactic(auto)]

mod boundaries;
mod contexts;
mod counting;
mod focusing;
mod laws;
mod locating;
mod part_ref;
mod rebuilding;
mod replacing;

pub use contexts::context;
pub use focusing::{FocusFault, Found, focus};
pub use laws::scope_around_place;
pub use locating::{Spot, locate};
pub use part_ref::PartRef;
pub use rebuilding::{RebuildFault, rebuild, replaced};
