//! Expressions: the values of reactions, without chance.

use ipdl_base::Bits;

/// An expression: its value is a list of bits, and it has no chance in it.
///
/// A variable is named by the number of binders between it and its own, so `Var(0)` is that of
/// the innermost binder. A symbol is named by its number in the signature.
#[derive(Drop)]
pub enum Expr {
    /// These bits.
    Lit(Bits),
    /// The value of a binder.
    Var(u32),
    /// The value of the binder of this depth, counted from the outermost one, around the place
    /// that a step works on. It stands in the arguments of steps alone.
    Outer(u32),
    /// The symbol's function at an argument.
    Apply(u32, Box<Expr>),
    /// Bit by bit, whether exactly one of the two is a one. Both have one width.
    Xor(Box<Expr>, Box<Expr>),
    /// Bit by bit, whether both are a one. Both have one width.
    And(Box<Expr>, Box<Expr>),
    /// Bit by bit, the other bit.
    Not(Box<Expr>),
    /// The bits of the first, and then those of the second: at most 128 together.
    Cat(Box<Expr>, Box<Expr>),
    /// From this bit on, counted from 0 on the left, so many bits.
    Cut(u8, u8, Box<Expr>),
    /// One bit: whether the two, of one width, are equal.
    Same(Box<Expr>, Box<Expr>),
    /// The second where the first, of width 1, is a one, and else the third.
    Mux(Box<Expr>, Box<Expr>, Box<Expr>),
}
