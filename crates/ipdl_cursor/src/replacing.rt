//! A term with another part at a place. What stands beside the way is copied, and the new part is
//! moved to its place.

ghost use Rattle.std.specs.Prelude.{◌≡◌, IfOk};
ghost use Rattle.ipdl_term.specs.Places.{expression_or, reaction_or, protocol_or, term_with};
ghost use Rattle.ipdl_term.specs.Terms.{protocol_term, reaction_term, expression_term};
ghost use Rattle.ipdl_term.specs.Views.{expression_of, reaction_of, protocol_of, term_of};

use ipdl_base::NoMemory;
use ipdl_term::{Expr, Part, Proto, React, boxed, copy_expr, copy_proto, copy_react};
use std::alloc::Global;

// A part of another kind than that which it is to replace changes nothing, and so does a place that
// leaves the term.

// ---- copies in boxes

fn expr_copy(alloc: Global, term: &Expr) -> Result<Box<Expr>, NoMemory>
    ensures { IfOk result (λ copy. expression_of copy.value ≡ expression_of term.now) }
{
    boxed(alloc, copy_expr(alloc, term))
}

fn react_copy(alloc: Global, term: &React) -> Result<Box<React>, NoMemory>
    ensures { IfOk result (λ copy. reaction_of copy.value ≡ reaction_of term.now) }
{
    boxed(alloc, copy_react(alloc, term))
}

fn proto_copy(alloc: Global, proto: &Proto) -> Result<Box<Proto>, NoMemory>
    ensures { IfOk result (λ copy. protocol_of copy.value ≡ protocol_of proto.now) }
{
    boxed(alloc, copy_proto(alloc, proto))
}

// ---- in an expression

// The new part, if it is an expression.
fn expr_or(alloc: Global, old: &Expr, new: Box<Part>) -> Result<Expr, NoMemory>
    ensures { IfOk result (λ made.
        expression_of made ≡ expression_or (expression_of old.now) (term_of new.value)) }
{
    match Box::into_inner(new) {
        Part::E(e) => Ok(e),
        Part::P(_p) => copy_expr(alloc, old),
        Part::R(_r) => copy_expr(alloc, old),
    }
}

// The expression with the new part at the place, in a box. Made in a call of its own, it takes no
// room in the frames of the walk.
#[cycle(expr)]
#[inline(never)]
fn expr_box(
    alloc: Global,
    whole: &Expr,
    place: &[u32],
    new: Box<Part>,
) -> Result<Box<Expr>, NoMemory>
    ensures { IfOk result (λ made. expression_of made.value ≡ expression_or (expression_of whole.now)
        (term_with (expression_term (expression_of whole.now)) place.now (term_of new.value))) }
{
    boxed(alloc, expr_with(alloc, whole, place, new))
}

// The expression with the new part at the place.
#[cycle(expr)]
fn expr_with(alloc: Global, whole: &Expr, place: &[u32], new: Box<Part>) -> Result<Expr, NoMemory>
    ensures { IfOk result (λ made. expression_of made ≡ expression_or (expression_of whole.now)
        (term_with (expression_term (expression_of whole.now)) place.now (term_of new.value))) }
{
    let Some((number, rest)) = place.split_first() else {
        return expr_or(alloc, whole, new);
    };
    match (whole, *number) {
        (Expr::Apply(f, a), 0) => Ok(Expr::Apply(*f, expr_box(alloc, a, rest, new)?)),
        (Expr::Xor(a, b), 0) => Ok(Expr::Xor(expr_box(alloc, a, rest, new)?, expr_copy(alloc, b)?)),
        (Expr::Xor(a, b), 1) => Ok(Expr::Xor(expr_copy(alloc, a)?, expr_box(alloc, b, rest, new)?)),
        (Expr::And(a, b), 0) => Ok(Expr::And(expr_box(alloc, a, rest, new)?, expr_copy(alloc, b)?)),
        (Expr::And(a, b), 1) => Ok(Expr::And(expr_copy(alloc, a)?, expr_box(alloc, b, rest, new)?)),
        (Expr::Not(a), 0) => Ok(Expr::Not(expr_box(alloc, a, rest, new)?)),
        (Expr::Cat(a, b), 0) => Ok(Expr::Cat(expr_box(alloc, a, rest, new)?, expr_copy(alloc, b)?)),
        (Expr::Cat(a, b), 1) => Ok(Expr::Cat(expr_copy(alloc, a)?, expr_box(alloc, b, rest, new)?)),
        (Expr::Cut(i, n, a), 0) => Ok(Expr::Cut(*i, *n, expr_box(alloc, a, rest, new)?)),
        (Expr::Same(a, b), 0) => Ok(Expr::Same(
            expr_box(alloc, a, rest, new)?,
            expr_copy(alloc, b)?,
        )),
        (Expr::Same(a, b), 1) => Ok(Expr::Same(
            expr_copy(alloc, a)?,
            expr_box(alloc, b, rest, new)?,
        )),
        (Expr::Mux(c, a, b), 0) => Ok(Expr::Mux(
            expr_box(alloc, c, rest, new)?,
            expr_copy(alloc, a)?,
            expr_copy(alloc, b)?,
        )),
        (Expr::Mux(c, a, b), 1) => Ok(Expr::Mux(
            expr_copy(alloc, c)?,
            expr_box(alloc, a, rest, new)?,
            expr_copy(alloc, b)?,
        )),
        (Expr::Mux(c, a, b), 2) => Ok(Expr::Mux(
            expr_copy(alloc, c)?,
            expr_copy(alloc, a)?,
            expr_box(alloc, b, rest, new)?,
        )),
        _ => copy_expr(alloc, whole),
    }
}

// ---- in a reaction

// The new part, if it is a reaction.
fn react_or(alloc: Global, old: &React, new: Box<Part>) -> Result<React, NoMemory>
    ensures { IfOk result (λ made.
        reaction_of made ≡ reaction_or (reaction_of old.now) (term_of new.value)) }
{
    match Box::into_inner(new) {
        Part::R(r) => Ok(r),
        Part::P(_p) => copy_react(alloc, old),
        Part::E(_e) => copy_react(alloc, old),
    }
}

// The reaction with the new part at the place, in a box, likewise.
#[cycle(react)]
#[inline(never)]
fn react_box(
    alloc: Global,
    whole: &React,
    place: &[u32],
    new: Box<Part>,
) -> Result<Box<React>, NoMemory>
    ensures { IfOk result (λ made. reaction_of made.value ≡ reaction_or (reaction_of whole.now)
        (term_with (reaction_term (reaction_of whole.now)) place.now (term_of new.value))) }
{
    boxed(alloc, react_with(alloc, whole, place, new))
}

// The reaction with the new part at the place.
#[cycle(react)]
fn react_with(
    alloc: Global,
    whole: &React,
    place: &[u32],
    new: Box<Part>,
) -> Result<React, NoMemory>
    ensures { IfOk result (λ made. reaction_of made ≡ reaction_or (reaction_of whole.now)
        (term_with (reaction_term (reaction_of whole.now)) place.now (term_of new.value))) }
{
    let Some((number, rest)) = place.split_first() else {
        return react_or(alloc, whole, new);
    };
    match (whole, *number) {
        (React::Ret(e), 0) => Ok(React::Ret(expr_with(alloc, e, rest, new)?)),
        (React::Cond(e, r, s), 0) => {
            let (one, other) = (react_copy(alloc, r)?, react_copy(alloc, s)?);
            Ok(React::Cond(expr_with(alloc, e, rest, new)?, one, other))
        }
        (React::Cond(e, r, s), 1) => {
            let (one, other) = (react_box(alloc, r, rest, new)?, react_copy(alloc, s)?);
            Ok(React::Cond(copy_expr(alloc, e)?, one, other))
        }
        (React::Cond(e, r, s), 2) => {
            let (one, other) = (react_copy(alloc, r)?, react_box(alloc, s, rest, new)?);
            Ok(React::Cond(copy_expr(alloc, e)?, one, other))
        }
        (React::Bind(w, r, s), 0) => Ok(React::Bind(
            *w,
            react_box(alloc, r, rest, new)?,
            react_copy(alloc, s)?,
        )),
        (React::Bind(w, r, s), 1) => Ok(React::Bind(
            *w,
            react_copy(alloc, r)?,
            react_box(alloc, s, rest, new)?,
        )),
        _ => copy_react(alloc, whole),
    }
}

// ---- in a protocol

// The new part, if it is a protocol.
fn proto_or(alloc: Global, old: &Proto, new: Box<Part>) -> Result<Proto, NoMemory>
    ensures { IfOk result (λ made.
        protocol_of made ≡ protocol_or (protocol_of old.now) (term_of new.value)) }
{
    match Box::into_inner(new) {
        Part::P(p) => Ok(p),
        Part::R(_r) => copy_proto(alloc, old),
        Part::E(_e) => copy_proto(alloc, old),
    }
}

// The protocol with the new part at the place, in a box, likewise.
#[cycle(proto)]
#[inline(never)]
fn proto_box(
    alloc: Global,
    whole: &Proto,
    place: &[u32],
    new: Box<Part>,
) -> Result<Box<Proto>, NoMemory>
    ensures { IfOk result (λ made. protocol_of made.value ≡ protocol_or (protocol_of whole.now)
        (term_with (protocol_term (protocol_of whole.now)) place.now (term_of new.value))) }
{
    boxed(alloc, proto_with(alloc, whole, place, new))
}

// The protocol with the new part at the place.
#[cycle(proto)]
pub(crate) fn proto_with(
    alloc: Global,
    whole: &Proto,
    place: &[u32],
    new: Box<Part>,
) -> Result<Proto, NoMemory>
    ensures { IfOk result (λ made. protocol_of made ≡ protocol_or (protocol_of whole.now)
        (term_with (protocol_term (protocol_of whole.now)) place.now (term_of new.value))) }
{
    let Some((number, rest)) = place.split_first() else {
        return proto_or(alloc, whole, new);
    };
    match (whole, *number) {
        (Proto::Out(c, r), 0) => Ok(Proto::Out(c.copy(alloc)?, react_with(alloc, r, rest, new)?)),
        (Proto::Par(p, q), 0) => Ok(Proto::Par(
            proto_box(alloc, p, rest, new)?,
            proto_copy(alloc, q)?,
        )),
        (Proto::Par(p, q), 1) => Ok(Proto::Par(
            proto_copy(alloc, p)?,
            proto_box(alloc, q, rest, new)?,
        )),
        (Proto::Hide(c, w, p), 0) => Ok(Proto::Hide(
            c.copy(alloc)?,
            *w,
            proto_box(alloc, p, rest, new)?,
        )),
        _ => copy_proto(alloc, whole),
    }
}
