//! A term of any of the three kinds, and the condition of an enclosing `if`.

use crate::expression::Expr;
use crate::protocol::Proto;
use crate::reaction::React;

/// A term of one of the three kinds.
#[derive(Drop)]
pub enum Part {
    P(Proto),
    R(React),
    E(Expr),
}

/// The test of an enclosing `if`, and the value that it has in the arm around the place.
#[derive(Drop)]
pub struct Condition {
    pub test: Expr,
    pub value: bool,
}
