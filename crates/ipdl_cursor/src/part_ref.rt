//! Parts of terms, borrowed from them.

ghost use Rattle.std.specs.Prelude.{◌≡◌, option_map};
ghost use Rattle.ipdl_term.specs.Places.{term_at};
ghost use Rattle.ipdl_term.specs.Terms.{protocol_term, reaction_term, expression_term};
ghost use Rattle.ipdl_term.specs.Views.{expression_of, reaction_of, protocol_of};
ghost use Rattle.ipdl_cursor.specs.Children.{child_part};
ghost use Rattle.ipdl_cursor.specs.Views.{part_of};

use ipdl_term::{Expr, Proto, React};

/// A part of a protocol, borrowed from it.
#[derive(Clone, Copy)]
pub enum PartRef<'a> {
    P(&'a Proto),
    R(&'a React),
    E(&'a Expr),
}

// The operand of this number.
fn expr_child<'a>(term: &'a Expr, number: u32) -> Option<PartRef<'a>>
    ensures { option_map part_of result ≡
        child_part (expression_term (expression_of term.now)) number }
{
    match term {
        Expr::Lit(_) | Expr::Var(_) | Expr::Outer(_) => None,
        Expr::Apply(_, a) | Expr::Not(a) | Expr::Cut(_, _, a) => match number {
            0 => Some(PartRef::E(a)),
            _ => None,
        },
        Expr::Xor(a, b) | Expr::And(a, b) | Expr::Cat(a, b) | Expr::Same(a, b) => match number {
            0 => Some(PartRef::E(a)),
            1 => Some(PartRef::E(b)),
            _ => None,
        },
        Expr::Mux(c, a, b) => match number {
            0 => Some(PartRef::E(c)),
            1 => Some(PartRef::E(a)),
            2 => Some(PartRef::E(b)),
            _ => None,
        },
    }
}

// The child of this number of a reaction.
fn react_child<'a>(term: &'a React, number: u32) -> Option<PartRef<'a>>
    ensures { option_map part_of result ≡
        child_part (reaction_term (reaction_of term.now)) number }
{
    match term {
        React::Flip(_) | React::Read(_) => None,
        React::Ret(e) => match number {
            0 => Some(PartRef::E(e)),
            _ => None,
        },
        React::Cond(e, r, s) => match number {
            0 => Some(PartRef::E(e)),
            1 => Some(PartRef::R(r)),
            2 => Some(PartRef::R(s)),
            _ => None,
        },
        React::Bind(_, r, s) => match number {
            0 => Some(PartRef::R(r)),
            1 => Some(PartRef::R(s)),
            _ => None,
        },
    }
}

// The child of this number of a protocol.
fn proto_child<'a>(proto: &'a Proto, number: u32) -> Option<PartRef<'a>>
    ensures { option_map part_of result ≡
        child_part (protocol_term (protocol_of proto.now)) number }
{
    match proto {
        Proto::Nil => None,
        Proto::Out(_, r) => match number {
            0 => Some(PartRef::R(r)),
            _ => None,
        },
        Proto::Par(p, q) => match number {
            0 => Some(PartRef::P(p)),
            1 => Some(PartRef::P(q)),
            _ => None,
        },
        Proto::Hide(_, _, p) => match number {
            0 => Some(PartRef::P(p)),
            _ => None,
        },
    }
}

// The child of this number, counted from 0.
pub(crate) fn child<'a>(part: PartRef<'a>, number: u32) -> Option<PartRef<'a>>
    ensures { option_map part_of result ≡ child_part (part_of part.entry) number }
{
    match part {
        PartRef::P(p) => proto_child(p, number),
        PartRef::R(r) => react_child(r, number),
        PartRef::E(e) => expr_child(e, number),
    }
}

// The part at a place.
pub(crate) fn part_at<'a>(whole: PartRef<'a>, place: &[u32]) -> Option<PartRef<'a>>
    ensures { option_map part_of result ≡ term_at (part_of whole.entry) place.now }
{
    let mut part = whole;
    for number in place {
        match child(part, *number) {
            Some(next) => part = next,
            None => return None,
        }
    }
    Some(part)
}
