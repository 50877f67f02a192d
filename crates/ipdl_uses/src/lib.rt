//! Uses of assumptions and theorems in steps: whether one may be used at a place, and the neighbours
//! that it gives there.
#![tactic(auto)]

mod adding;
mod carrying;
mod fault;
mod hidden;
mod instances;
mod known;
mod laws;
mod naming;
mod refusing;
mod sides;
mod site;

pub use adding::{Added, neighbours_added};
pub use fault::UseFault;
pub use hidden::hidden_in;
pub use instances::instance;
pub use known::{Claim, Known};
pub use laws::{assumption_means, ends_are_equal, usable_exactly, used_means};
pub use refusing::renaming_there;
pub use site::Site;
