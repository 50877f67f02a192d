//! Laws of the uses of protocols: in other names, in contexts, and in uses within uses. Each is a
//! function that does nothing and has the law as its contract, so that the check proves it.
#![tactic(auto)]

pub mod bounds;
pub mod carrying;
pub mod composition;
pub mod sites;
