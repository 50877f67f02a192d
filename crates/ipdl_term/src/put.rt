//! Substitution: a value in the place of a variable, without capture and within the limit on nodes.

ghost use Rattle.std.specs.Prelude.{◌≡◌, ◌↔◌, ◌+◌, ◌^◌, ◌<◌, max, IfOk};
ghost use Rattle.ipdl_term.specs.Views.{expression_of, reaction_of};
ghost use Rattle.ipdl_term.specs.Sizes.{saturated, most_nodes, expression_nodes, reaction_nodes, reaction_binders, greatest_in_expression, greatest_in_reaction};
ghost use Rattle.ipdl_term.specs.Variables.{put_expression, put_reaction};

use crate::change::{Change, changed_expr, changed_react};
use crate::expression::Expr;
use crate::reaction::React;
use crate::sizes::expr_nodes;
use ipdl_base::{Limit, NoMemory};
use std::alloc::Global;

/// Why no term is answered.
#[derive(Clone, Copy, Debug, PartialEq, Eq)]
pub enum TermFault {
    /// It would have more than 4,096 nodes.
    Nodes,
    /// Memory ran out.
    Memory,
}

// The nodes of the body with the value in the place of a variable.
#[tactic(auto, using(crate::proofs::SizeLemmas::nodes_of_put))]
fn put_expr_nodes(body: &Expr, depth: u32, value: &Expr, value_nodes: u64) -> u64
    requires { value_nodes ≡ saturated (expression_nodes (expression_of value.now)) }
    ensures { result ≡ saturated (expression_nodes (put_expression depth (expression_of body.now) (expression_of value.now))) }
{
    match body {
        Expr::Lit(_) | Expr::Outer(_) => 1,
        Expr::Var(n) => if *n == depth { value_nodes } else { 1 },
        Expr::Apply(_, e) | Expr::Not(e) | Expr::Cut(_, _, e) => put_expr_nodes(
            e,
            depth,
            value,
            value_nodes,
        ).saturating_add(1),
        Expr::Xor(a, b) | Expr::And(a, b) | Expr::Cat(a, b) | Expr::Same(a, b) => {
            put_expr_nodes(a, depth, value, value_nodes)
                .saturating_add(put_expr_nodes(b, depth, value, value_nodes))
                .saturating_add(1)
        }
        Expr::Mux(c, a, b) => put_expr_nodes(c, depth, value, value_nodes)
            .saturating_add(put_expr_nodes(a, depth, value, value_nodes))
            .saturating_add(put_expr_nodes(b, depth, value, value_nodes))
            .saturating_add(1),
    }
}

// The nodes of the body with the value in the place of a variable, counted under its binders.
fn put_react_nodes(body: &React, depth: u32, value: &Expr, value_nodes: u64) -> u64
    requires nodes { value_nodes ≡ saturated (expression_nodes (expression_of value.now)) }
    requires depth { depth + reaction_binders (reaction_of body.now) < 2 ^ 32 }
    ensures { result ≡ saturated (reaction_nodes (put_reaction depth (reaction_of body.now) (expression_of value.now))) }
{
    match body {
        React::Ret(e) => put_expr_nodes(e, depth, value, value_nodes).saturating_add(1),
        React::Flip(_) | React::Read(_) => 1,
        React::Cond(e, r, s) => put_expr_nodes(e, depth, value, value_nodes)
            .saturating_add(put_react_nodes(r, depth, value, value_nodes))
            .saturating_add(put_react_nodes(s, depth, value, value_nodes))
            .saturating_add(1),
        React::Bind(_, r, s) => put_react_nodes(r, depth, value, value_nodes)
            .saturating_add(put_react_nodes(s, depth + 1, value, value_nodes))
            .saturating_add(1),
    }
}

/// The body with the value in the place of variable 0, and each other variable one less. `Nodes`
/// exactly where that is too large, which is counted before anything is made.
#[tactic(auto, using(crate::proofs::ChangeFits::put_fits, crate::proofs::ChangeLemmas::with_value))]
pub fn put_expr(alloc: Global, body: &Expr, value: &Expr) -> Result<Expr, TermFault>
    ensures value { IfOk result (λ term. expression_of term ≡ put_expression 0 (expression_of body.now) (expression_of value.now)) }
    ensures nodes { (result ≡ Err TermFault.Nodes) ↔ (most_nodes < expression_nodes (put_expression 0 (expression_of body.now) (expression_of value.now))) }
{
    if put_expr_nodes(body, 0, value, expr_nodes(value)) > Limit::Nodes.number() {
        return Err(TermFault::Nodes);
    }
    match changed_expr(alloc, &Change::Put { value }, 0, body) {
        Ok(term) => Ok(term),
        Err(_) => Err(TermFault::Memory),
    }
}

/// The body with the value in the place of variable 0, and each other variable one less. The
/// value's variables grow by one under each binder of the body. `Nodes` exactly where that is too
/// large, which is counted before anything is made.
#[tactic(auto, using(crate::proofs::ChangeFits::put_fits, crate::proofs::ChangeLemmas::with_value))]
pub fn put_react(alloc: Global, body: &React, value: &Expr) -> Result<React, TermFault>
    requires { max (greatest_in_reaction (reaction_of body.now)) (greatest_in_expression (expression_of value.now)) + reaction_binders (reaction_of body.now) < 2 ^ 32 }
    ensures value { IfOk result (λ term. reaction_of term ≡ put_reaction 0 (reaction_of body.now) (expression_of value.now)) }
    ensures nodes { (result ≡ Err TermFault.Nodes) ↔ (most_nodes < reaction_nodes (put_reaction 0 (reaction_of body.now) (expression_of value.now))) }
{
    if put_react_nodes(body, 0, value, expr_nodes(value)) > Limit::Nodes.number() {
        return Err(TermFault::Nodes);
    }
    match changed_react(alloc, &Change::Put { value }, 0, body) {
        Ok(term) => Ok(term),
        Err(_) => Err(TermFault::Memory),
    }
}
