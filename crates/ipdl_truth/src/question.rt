//! What is asked, as the walks take it.

use ipdl_sig::Sig;
use ipdl_term::{Condition, Expr};

// Two expressions, the widths of the binders around them from the outermost, and the conditions.
#[derive(Clone, Copy)]
pub(crate) struct Question<'a> {
    pub sig: &'a Sig,
    pub widths: &'a [u8],
    pub left: &'a Expr,
    pub right: &'a Expr,
    pub conditions: &'a [Condition],
}
