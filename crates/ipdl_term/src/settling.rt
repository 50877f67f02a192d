//! Settling: the outer variables of an argument become variables, counted from the place of the step.

ghost use Rattle.std.specs.Prelude.{◌≡◌, ◌↔◌, ℕ, ◌+◌, ◌^◌, ◌<◌, Option, Some, IfOk};
ghost use Rattle.ipdl_term.specs.Views.{expression_of, reaction_of, protocol_of, term_of};
ghost use Rattle.ipdl_term.specs.Sizes.{reaction_binders, protocol_binders, term_binders, greatest_in_term};
ghost use Rattle.ipdl_term.specs.Variables.{settled_expression, settled_reaction, settled_protocol, settled_term, unsettled_in_expression, unsettled_in_reaction, unsettled_in_protocol, unsettled_number};

use crate::change::{Change, changed_expr, changed_proto, changed_react};
use crate::expression::Expr;
use crate::part::Part;
use crate::protocol::Proto;
use crate::reaction::React;
use ipdl_base::NoMemory;
use std::alloc::Global;

/// Why the outer variables of a term are not settled.
#[derive(Clone, Copy, Debug, PartialEq, Eq)]
pub enum SettleFault {
    /// There is no binder of this depth around the place.
    NoVariable { number: u32 },
    /// Memory ran out.
    Memory,
}

/// The first outer variable of the expression, in preorder, that has no binder where so many stand
/// around the place.
pub fn unsettled_in_expr(depth: u32, term: &Expr) -> Option<u32>
    ensures { result ≡ unsettled_in_expression depth (expression_of term.now) }
{
    match term {
        Expr::Lit(_) | Expr::Var(_) => None,
        Expr::Outer(n) => if *n < depth { None } else { Some(*n) },
        Expr::Apply(_, e) | Expr::Not(e) | Expr::Cut(_, _, e) => unsettled_in_expr(depth, e),
        Expr::Xor(a, b) | Expr::And(a, b) | Expr::Cat(a, b) | Expr::Same(a, b) => {
            match unsettled_in_expr(depth, a) {
                Some(n) => Some(n),
                None => unsettled_in_expr(depth, b),
            }
        }
        Expr::Mux(c, a, b) => match unsettled_in_expr(depth, c) {
            Some(n) => Some(n),
            None => match unsettled_in_expr(depth, a) {
                Some(n) => Some(n),
                None => unsettled_in_expr(depth, b),
            },
        },
    }
}

// The same in a reaction.
fn unsettled_in_react(depth: u32, term: &React) -> Option<u32>
    ensures { result ≡ unsettled_in_reaction depth (reaction_of term.now) }
{
    match term {
        React::Ret(e) => unsettled_in_expr(depth, e),
        React::Flip(_) | React::Read(_) => None,
        React::Cond(e, r, s) => match unsettled_in_expr(depth, e) {
            Some(n) => Some(n),
            None => match unsettled_in_react(depth, r) {
                Some(n) => Some(n),
                None => unsettled_in_react(depth, s),
            },
        },
        React::Bind(_, r, s) => match unsettled_in_react(depth, r) {
            Some(n) => Some(n),
            None => unsettled_in_react(depth, s),
        },
    }
}

// The same in a protocol.
fn unsettled_in_proto(depth: u32, proto: &Proto) -> Option<u32>
    ensures { result ≡ unsettled_in_protocol depth (protocol_of proto.now) }
{
    match proto {
        Proto::Nil => None,
        Proto::Out(_, r) => unsettled_in_react(depth, r),
        Proto::Par(p, q) => match unsettled_in_proto(depth, p) {
            Some(n) => Some(n),
            None => unsettled_in_proto(depth, q),
        },
        Proto::Hide(_, _, p) => unsettled_in_proto(depth, p),
    }
}

// The same in a term of any kind.
fn unsettled(depth: u32, part: &Part) -> Option<u32>
    ensures { result ≡ unsettled_number depth (term_of part.now) }
{
    match part {
        Part::P(p) => unsettled_in_proto(depth, p),
        Part::R(r) => unsettled_in_react(depth, r),
        Part::E(e) => unsettled_in_expr(depth, e),
    }
}

// The term with each outer variable as a variable.
#[tactic(auto, using(crate::proofs::ChangeFits::settle_fits, crate::proofs::ChangeLemmas::settled))]
fn settled(alloc: Global, depth: u32, part: &Part) -> Result<Part, NoMemory>
    requires { depth + term_binders (term_of part.now) < 2 ^ 32 }
    ensures { IfOk result (λ settled. term_of settled ≡ settled_term depth (term_of part.now)) }
{
    Ok(match part {
        Part::P(p) => Part::P(changed_proto(alloc, &Change::Settle, u64::from(depth), p)?),
        Part::R(r) => Part::R(changed_react(alloc, &Change::Settle, u64::from(depth), r)?),
        Part::E(e) => Part::E(changed_expr(alloc, &Change::Settle, u64::from(depth), e)?),
    })
}

/// The term with each outer variable as a variable, where `depth` binders stand around the place.
/// `NoVariable` exactly where one has no binder there, with the first such in preorder.
pub fn settle(alloc: Global, depth: u32, part: &Part) -> Result<Part, SettleFault>
    requires { greatest_in_term (term_of part.now) + term_binders (term_of part.now) + depth < 2 ^ 32 }
    ensures settled { IfOk result (λ settled. term_of settled ≡ settled_term depth (term_of part.now)) }
    ensures no_variable { (n : ℕ) → (result ≡ Err (SettleFault.NoVariable n)) ↔ (unsettled_number depth (term_of part.now) ≡ Some n) }
{
    if let Some(number) = unsettled(depth, part) {
        return Err(SettleFault::NoVariable { number });
    }
    match settled(alloc, depth, part) {
        Ok(term) => Ok(term),
        Err(_) => Err(SettleFault::Memory),
    }
}

/// The expression with each outer variable as a variable, where `depth` binders stand around the
/// place. `NoVariable` exactly where one has no binder there, with the first such in preorder.
#[tactic(auto, using(crate::proofs::ChangeFits::settle_fits, crate::proofs::ChangeLemmas::settled))]
pub fn settle_expr(alloc: Global, depth: u32, term: &Expr) -> Result<Expr, SettleFault>
    ensures settled { IfOk result (λ settled. expression_of settled ≡ settled_expression depth (expression_of term.now)) }
    ensures no_variable { (n : ℕ) → (result ≡ Err (SettleFault.NoVariable n)) ↔ (unsettled_in_expression depth (expression_of term.now) ≡ Some n) }
{
    if let Some(number) = unsettled_in_expr(depth, term) {
        return Err(SettleFault::NoVariable { number });
    }
    match changed_expr(alloc, &Change::Settle, u64::from(depth), term) {
        Ok(term) => Ok(term),
        Err(_) => Err(SettleFault::Memory),
    }
}
