//! Reactions: what computes the value of a channel.

use crate::expression::Expr;
use ipdl_base::Name;

/// A reaction: it draws bits, reads channels, and gives a value, or waits for ever.
#[derive(Drop)]
pub enum React {
    /// The value of an expression.
    Ret(Expr),
    /// So many fresh bits, which is the only source of chance.
    Flip(u8),
    /// The value of a channel. It waits where the channel is not written.
    Read(Name),
    /// The first where the expression, of width 1, is a one, and else the second.
    Cond(Expr, Box<React>, Box<React>),
    /// Runs the first, names its value, of this width, variable 0 in the second, and runs that.
    Bind(u8, Box<React>, Box<React>),
}
