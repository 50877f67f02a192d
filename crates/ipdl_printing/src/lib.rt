//! How terms are printed: each as a tree, and the text is the tree's one spelling.
#![tactic(auto)]

mod contexts;
mod expressions;
mod laws;
mod printing;
mod protocols;
mod reactions;
mod texts;
mod tokens;

pub use contexts::push_ctx;
pub use expressions::push_expr;
pub use laws::{printed_tree_depth, printed_tree_has_no_offsets};
pub use printing::{show_ctx, show_expr, show_proto, show_react};
pub use protocols::push_proto;
pub use reactions::push_react;
pub use texts::{push_place, push_spaced};
