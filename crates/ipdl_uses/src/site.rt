//! Where something is used.

use ipdl_base::Path;
use ipdl_embed::{Renaming, SharedPairs};
use ipdl_term::Ctx;

/// A place, what is around it, and the names there of an interface's channels.
#[derive(Clone, Copy)]
pub struct Site<'a> {
    pub path: &'a Path,
    pub ctx: &'a Ctx,
    pub renaming: &'a Renaming,
    /// The pairs of the renaming, for the marks.
    pub pairs: &'a SharedPairs,
}
