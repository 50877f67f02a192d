//! The first place at which two terms differ.

ghost use Rattle.std.specs.Prelude.{◌≡◌, [], Some, IfOk};
ghost use Rattle.ipdl_term.specs.Views.{expression_of, reaction_of, protocol_of};
ghost use Rattle.ipdl_script.specs.EndPlaces.{below, outward, differing_in_expression, differing_in_reaction, differing_place};

use ipdl_base::{List, NoMemory};
use ipdl_term::{Expr, Proto, React};
use std::alloc::Global;

// A place, if there is one. Its last child is the outermost, so that going outward takes one push.
type Found = Option<List<u32>>;

// The place in the child of this number.
fn below(child: u32, place: Found) -> Result<Found, NoMemory>
    ensures { IfOk result (λ r. outward r ≡ below child (outward place)) }
{
    match place {
        None => Ok(None),
        Some(mut children) => {
            children.push(child)?;
            Ok(Some(children))
        }
    }
}

// The place of the whole term.
fn here(alloc: Global) -> Found
    ensures { outward result ≡ Some [] }
{
    Some(List::empty(alloc))
}

// The first place at which the expressions differ.
fn differing_in_expr(alloc: Global, left: &Expr, right: &Expr) -> Result<Found, NoMemory>
    ensures { IfOk result (λ r. outward r ≡ differing_in_expression (expression_of left.now) (expression_of right.now)) }
{
    match (left, right) {
        (Expr::Lit(a), Expr::Lit(b)) if *a == *b => Ok(None),
        (Expr::Var(m), Expr::Var(n)) if *m == *n => Ok(None),
        (Expr::Outer(m), Expr::Outer(n)) if *m == *n => Ok(None),
        (Expr::Apply(f, a), Expr::Apply(g, b)) if *f == *g => {
            below(0, differing_in_expr(alloc, a, b)?)
        }
        (Expr::Not(a), Expr::Not(b)) => below(0, differing_in_expr(alloc, a, b)?),
        (Expr::Cut(i, m, a), Expr::Cut(j, n, b)) if *i == *j && *m == *n => {
            below(0, differing_in_expr(alloc, a, b)?)
        }
        (Expr::Xor(a, b), Expr::Xor(c, d))
        | (Expr::And(a, b), Expr::And(c, d))
        | (Expr::Cat(a, b), Expr::Cat(c, d))
        | (Expr::Same(a, b), Expr::Same(c, d)) => {
            if let Some(place) = differing_in_expr(alloc, a, c)? {
                return below(0, Some(place));
            }
            below(1, differing_in_expr(alloc, b, d)?)
        }
        (Expr::Mux(a, b, c), Expr::Mux(d, e, f)) => {
            if let Some(place) = differing_in_expr(alloc, a, d)? {
                return below(0, Some(place));
            }
            if let Some(place) = differing_in_expr(alloc, b, e)? {
                return below(1, Some(place));
            }
            below(2, differing_in_expr(alloc, c, f)?)
        }
        _ => Ok(here(alloc)),
    }
}

// The first place at which the reactions differ.
fn differing_in_react(alloc: Global, left: &React, right: &React) -> Result<Found, NoMemory>
    ensures { IfOk result (λ r. outward r ≡ differing_in_reaction (reaction_of left.now) (reaction_of right.now)) }
{
    match (left, right) {
        (React::Ret(a), React::Ret(b)) => below(0, differing_in_expr(alloc, a, b)?),
        (React::Flip(v), React::Flip(w)) if *v == *w => Ok(None),
        (React::Read(c), React::Read(d)) if *c == *d => Ok(None),
        (React::Cond(a, r, s), React::Cond(b, t, u)) => {
            if let Some(place) = differing_in_expr(alloc, a, b)? {
                return below(0, Some(place));
            }
            if let Some(place) = differing_in_react(alloc, r, t)? {
                return below(1, Some(place));
            }
            below(2, differing_in_react(alloc, s, u)?)
        }
        (React::Bind(v, r, s), React::Bind(w, t, u)) if *v == *w => {
            if let Some(place) = differing_in_react(alloc, r, t)? {
                return below(0, Some(place));
            }
            below(1, differing_in_react(alloc, s, u)?)
        }
        _ => Ok(here(alloc)),
    }
}

// The first place at which the protocols differ.
fn differing_in_proto(alloc: Global, left: &Proto, right: &Proto) -> Result<Found, NoMemory>
    ensures { IfOk result (λ r. outward r ≡ differing_place (protocol_of left.now) (protocol_of right.now)) }
{
    match (left, right) {
        (Proto::Nil, Proto::Nil) => Ok(None),
        (Proto::Out(c, r), Proto::Out(d, s)) if *c == *d => {
            below(0, differing_in_react(alloc, r, s)?)
        }
        (Proto::Par(p, q), Proto::Par(r, s)) => {
            if let Some(place) = differing_in_proto(alloc, p, r)? {
                return below(0, Some(place));
            }
            below(1, differing_in_proto(alloc, q, s)?)
        }
        (Proto::Hide(c, v, p), Proto::Hide(d, w, q)) if *c == *d && *v == *w => {
            below(0, differing_in_proto(alloc, p, q)?)
        }
        _ => Ok(here(alloc)),
    }
}

/// The first place in preorder at which two protocols differ in what stands there, if they do: in the
/// head, a name or a number.
pub fn differing_at(
    alloc: Global,
    left: &Proto,
    right: &Proto,
) -> Result<Option<List<u32>>, NoMemory>
    ensures { IfOk result (λ r. r ≡ differing_place (protocol_of left.now) (protocol_of right.now)) }
{
    match differing_in_proto(alloc, left, right)? {
        None => Ok(None),
        Some(place) => {
            let mut children = place.into_vec();
            children.reverse();
            Ok(Some(List::from_vec(children)))
        }
    }
}
