//! The type checker: whether an expression, a reaction or a protocol is well typed, and if not,
//! the first check that fails, with its place.
#![tactic(auto)]

mod binder_widths;
mod expressions;
mod fault;
pub mod laws;
mod place;
mod protocols;
mod reactions;
mod sides;
mod visible;

pub use expressions::check_expr;
pub use fault::{Ill, IllCause, TypeFault};
pub use protocols::check_proto;
pub use reactions::check_react;
pub use sides::check_sides;
