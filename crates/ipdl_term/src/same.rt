//! Equality of terms: they are equal if they have the same nodes at the same places.

ghost use Rattle.std.specs.Prelude.{◌≡◌, ◌↔◌, IsTrue};
ghost use Rattle.ipdl_term.specs.Views.{expression_of, reaction_of, protocol_of, term_of};
ghost use Rattle.ipdl_term.specs.Same.{same_expression, same_reaction, same_protocol, same_term};

use crate::expression::Expr;
use crate::part::Part;
use crate::protocol::Proto;
use crate::reaction::React;

// Whether two expressions are the same.
fn is_same_expr(left: &Expr, right: &Expr) -> bool
    ensures { result ≡ same_expression (expression_of left.now) (expression_of right.now) }
{
    match (left, right) {
        (Expr::Lit(a), Expr::Lit(b)) => *a == *b,
        (Expr::Var(m), Expr::Var(n)) => *m == *n,
        (Expr::Outer(m), Expr::Outer(n)) => *m == *n,
        (Expr::Apply(f, a), Expr::Apply(g, b)) => *f == *g && is_same_expr(a, b),
        (Expr::Xor(a, b), Expr::Xor(c, d)) => is_same_expr(a, c) && is_same_expr(b, d),
        (Expr::And(a, b), Expr::And(c, d)) => is_same_expr(a, c) && is_same_expr(b, d),
        (Expr::Not(a), Expr::Not(b)) => is_same_expr(a, b),
        (Expr::Cat(a, b), Expr::Cat(c, d)) => is_same_expr(a, c) && is_same_expr(b, d),
        (Expr::Cut(i, m, a), Expr::Cut(j, n, b)) => *i == *j && *m == *n && is_same_expr(a, b),
        (Expr::Same(a, b), Expr::Same(c, d)) => is_same_expr(a, c) && is_same_expr(b, d),
        (Expr::Mux(a, b, c), Expr::Mux(d, e, f)) => {
            is_same_expr(a, d) && is_same_expr(b, e) && is_same_expr(c, f)
        }
        _ => false,
    }
}

// Whether two reactions are the same.
fn is_same_react(left: &React, right: &React) -> bool
    ensures { result ≡ same_reaction (reaction_of left.now) (reaction_of right.now) }
{
    match (left, right) {
        (React::Ret(a), React::Ret(b)) => is_same_expr(a, b),
        (React::Flip(v), React::Flip(w)) => *v == *w,
        (React::Read(c), React::Read(d)) => *c == *d,
        (React::Cond(a, r, s), React::Cond(b, t, u)) => {
            is_same_expr(a, b) && is_same_react(r, t) && is_same_react(s, u)
        }
        (React::Bind(v, r, s), React::Bind(w, t, u)) => {
            *v == *w && is_same_react(r, t) && is_same_react(s, u)
        }
        _ => false,
    }
}

// Whether two protocols are the same.
fn is_same_proto(left: &Proto, right: &Proto) -> bool
    ensures { result ≡ same_protocol (protocol_of left.now) (protocol_of right.now) }
{
    match (left, right) {
        (Proto::Nil, Proto::Nil) => true,
        (Proto::Out(c, r), Proto::Out(d, s)) => *c == *d && is_same_react(r, s),
        (Proto::Par(p, q), Proto::Par(r, s)) => is_same_proto(p, r) && is_same_proto(q, s),
        (Proto::Hide(c, v, p), Proto::Hide(d, w, q)) => {
            *c == *d && *v == *w && is_same_proto(p, q)
        }
        _ => false,
    }
}

// Whether two terms are of one kind and the same.
fn is_same_part(left: &Part, right: &Part) -> bool
    ensures { result ≡ same_term (term_of left.now) (term_of right.now) }
{
    match (left, right) {
        (Part::P(p), Part::P(q)) => is_same_proto(p, q),
        (Part::R(r), Part::R(s)) => is_same_react(r, s),
        (Part::E(a), Part::E(b)) => is_same_expr(a, b),
        _ => false,
    }
}

impl PartialEq for Expr {
    ghost use Rattle.std.specs.Cmp.{partial_equiv_from_equiv, on_equiv};
    ghost use Rattle.std.specs.Ordering.{on};
    ghost use Rattle.ipdl_term.specs.Views.{expression_of};
    ghost use Rattle.ipdl_term.specs.Same.{same_expression, same_expression-equivalence};

    ghost eq = { on expression_of same_expression };

    ghost laws = { partial_equiv_from_equiv (on_equiv expression_of same_expression-equivalence) };

    fn eq(&self, other: &Expr) -> bool
        ensures value { result ≡ same_expression (expression_of self.now) (expression_of other.now) }
        ensures same { IsTrue result ↔ (expression_of self.now ≡ expression_of other.now) }
    {
        is_same_expr(self, other)
    }
}

impl Eq for Expr {
    ghost use Rattle.std.specs.Cmp.{on_equiv};
    ghost use Rattle.ipdl_term.specs.Views.{expression_of};
    ghost use Rattle.ipdl_term.specs.Same.{same_expression-equivalence};

    ghost laws = { on_equiv expression_of same_expression-equivalence };
}

impl PartialEq for React {
    ghost use Rattle.std.specs.Cmp.{partial_equiv_from_equiv, on_equiv};
    ghost use Rattle.std.specs.Ordering.{on};
    ghost use Rattle.ipdl_term.specs.Views.{reaction_of};
    ghost use Rattle.ipdl_term.specs.Same.{same_reaction, same_reaction-equivalence};

    ghost eq = { on reaction_of same_reaction };

    ghost laws = { partial_equiv_from_equiv (on_equiv reaction_of same_reaction-equivalence) };

    fn eq(&self, other: &React) -> bool
        ensures value { result ≡ same_reaction (reaction_of self.now) (reaction_of other.now) }
        ensures same { IsTrue result ↔ (reaction_of self.now ≡ reaction_of other.now) }
    {
        is_same_react(self, other)
    }
}

impl Eq for React {
    ghost use Rattle.std.specs.Cmp.{on_equiv};
    ghost use Rattle.ipdl_term.specs.Views.{reaction_of};
    ghost use Rattle.ipdl_term.specs.Same.{same_reaction-equivalence};

    ghost laws = { on_equiv reaction_of same_reaction-equivalence };
}

impl PartialEq for Proto {
    ghost use Rattle.std.specs.Cmp.{partial_equiv_from_equiv, on_equiv};
    ghost use Rattle.std.specs.Ordering.{on};
    ghost use Rattle.ipdl_term.specs.Views.{protocol_of};
    ghost use Rattle.ipdl_term.specs.Same.{same_protocol, same_protocol-equivalence};

    ghost eq = { on protocol_of same_protocol };

    ghost laws = { partial_equiv_from_equiv (on_equiv protocol_of same_protocol-equivalence) };

    fn eq(&self, other: &Proto) -> bool
        ensures value { result ≡ same_protocol (protocol_of self.now) (protocol_of other.now) }
        ensures same { IsTrue result ↔ (protocol_of self.now ≡ protocol_of other.now) }
    {
        is_same_proto(self, other)
    }
}

impl Eq for Proto {
    ghost use Rattle.std.specs.Cmp.{on_equiv};
    ghost use Rattle.ipdl_term.specs.Views.{protocol_of};
    ghost use Rattle.ipdl_term.specs.Same.{same_protocol-equivalence};

    ghost laws = { on_equiv protocol_of same_protocol-equivalence };
}

impl PartialEq for Part {
    ghost use Rattle.std.specs.Cmp.{partial_equiv_from_equiv, on_equiv};
    ghost use Rattle.std.specs.Ordering.{on};
    ghost use Rattle.ipdl_term.specs.Views.{term_of};
    ghost use Rattle.ipdl_term.specs.Same.{same_term, same_term-equivalence};

    ghost eq = { on term_of same_term };

    ghost laws = { partial_equiv_from_equiv (on_equiv term_of same_term-equivalence) };

    fn eq(&self, other: &Part) -> bool
        ensures value { result ≡ same_term (term_of self.now) (term_of other.now) }
        ensures same { IsTrue result ↔ (term_of self.now ≡ term_of other.now) }
    {
        is_same_part(self, other)
    }
}

impl Eq for Part {
    ghost use Rattle.std.specs.Cmp.{on_equiv};
    ghost use Rattle.ipdl_term.specs.Views.{term_of};
    ghost use Rattle.ipdl_term.specs.Same.{same_term-equivalence};

    ghost laws = { on_equiv term_of same_term-equivalence };
}
