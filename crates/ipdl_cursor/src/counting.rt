//! The nodes of a term with another part at a place, counted before that term is made.

ghost use Rattle.std.specs.Prelude.{◌≡◌};
ghost use Rattle.ipdl_term.specs.Places.{expression_or, reaction_or, protocol_or, term_with};
ghost use Rattle.ipdl_term.specs.Sizes.{saturated, expression_nodes, reaction_nodes, protocol_nodes};
ghost use Rattle.ipdl_term.specs.Terms.{protocol_term, reaction_term, expression_term};
ghost use Rattle.ipdl_term.specs.Views.{expression_of, reaction_of, protocol_of, term_of};

use ipdl_term::{Expr, Part, Proto, React, expr_nodes, proto_nodes, react_nodes};

// The nodes of the expression with the new part at the place. What stands beside the way is
// counted, and not what the part replaces: a count that stands at the last `u64` says too little
// to be taken off again.
fn expr_nodes_with(whole: &Expr, place: &[u32], new: &Part) -> u64
    ensures { result ≡ saturated (expression_nodes (expression_or (expression_of whole.now)
        (term_with (expression_term (expression_of whole.now)) place.now (term_of new.now)))) }
{
    let Some((number, rest)) = place.split_first() else {
        return match new {
            Part::E(e) => expr_nodes(e),
            _ => expr_nodes(whole),
        };
    };
    match whole {
        Expr::Lit(_) | Expr::Var(_) | Expr::Outer(_) => 1,
        Expr::Apply(_, a) | Expr::Not(a) | Expr::Cut(_, _, a) => match *number {
            0 => expr_nodes_with(a, rest, new).saturating_add(1),
            _ => expr_nodes(whole),
        },
        Expr::Xor(a, b) | Expr::And(a, b) | Expr::Cat(a, b) | Expr::Same(a, b) => match *number {
            0 => expr_nodes_with(a, rest, new)
                .saturating_add(expr_nodes(b))
                .saturating_add(1),
            1 => expr_nodes(a)
                .saturating_add(expr_nodes_with(b, rest, new))
                .saturating_add(1),
            _ => expr_nodes(whole),
        },
        Expr::Mux(c, a, b) => match *number {
            0 => expr_nodes_with(c, rest, new)
                .saturating_add(expr_nodes(a))
                .saturating_add(expr_nodes(b))
                .saturating_add(1),
            1 => expr_nodes(c)
                .saturating_add(expr_nodes_with(a, rest, new))
                .saturating_add(expr_nodes(b))
                .saturating_add(1),
            2 => expr_nodes(c)
                .saturating_add(expr_nodes(a))
                .saturating_add(expr_nodes_with(b, rest, new))
                .saturating_add(1),
            _ => expr_nodes(whole),
        },
    }
}

// The same of a reaction.
fn react_nodes_with(whole: &React, place: &[u32], new: &Part) -> u64
    ensures { result ≡ saturated (reaction_nodes (reaction_or (reaction_of whole.now)
        (term_with (reaction_term (reaction_of whole.now)) place.now (term_of new.now)))) }
{
    let Some((number, rest)) = place.split_first() else {
        return match new {
            Part::R(r) => react_nodes(r),
            _ => react_nodes(whole),
        };
    };
    match whole {
        React::Flip(_) | React::Read(_) => 1,
        React::Ret(e) => match *number {
            0 => expr_nodes_with(e, rest, new).saturating_add(1),
            _ => react_nodes(whole),
        },
        React::Cond(e, r, s) => match *number {
            0 => expr_nodes_with(e, rest, new)
                .saturating_add(react_nodes(r))
                .saturating_add(react_nodes(s))
                .saturating_add(1),
            1 => expr_nodes(e)
                .saturating_add(react_nodes_with(r, rest, new))
                .saturating_add(react_nodes(s))
                .saturating_add(1),
            2 => expr_nodes(e)
                .saturating_add(react_nodes(r))
                .saturating_add(react_nodes_with(s, rest, new))
                .saturating_add(1),
            _ => react_nodes(whole),
        },
        React::Bind(_, r, s) => match *number {
            0 => react_nodes_with(r, rest, new)
                .saturating_add(react_nodes(s))
                .saturating_add(1),
            1 => react_nodes(r)
                .saturating_add(react_nodes_with(s, rest, new))
                .saturating_add(1),
            _ => react_nodes(whole),
        },
    }
}

// The same of a protocol.
pub(crate) fn proto_nodes_with(whole: &Proto, place: &[u32], new: &Part) -> u64
    ensures { result ≡ saturated (protocol_nodes (protocol_or (protocol_of whole.now)
        (term_with (protocol_term (protocol_of whole.now)) place.now (term_of new.now)))) }
{
    let Some((number, rest)) = place.split_first() else {
        return match new {
            Part::P(p) => proto_nodes(p),
            _ => proto_nodes(whole),
        };
    };
    match whole {
        Proto::Nil => 1,
        Proto::Out(_, r) => match *number {
            0 => react_nodes_with(r, rest, new).saturating_add(1),
            _ => proto_nodes(whole),
        },
        Proto::Par(p, q) => match *number {
            0 => proto_nodes_with(p, rest, new)
                .saturating_add(proto_nodes(q))
                .saturating_add(1),
            1 => proto_nodes(p)
                .saturating_add(proto_nodes_with(q, rest, new))
                .saturating_add(1),
            _ => proto_nodes(whole),
        },
        Proto::Hide(_, _, p) => match *number {
            0 => proto_nodes_with(p, rest, new).saturating_add(1),
            _ => proto_nodes(whole),
        },
    }
}
