//! Changes of the variables of a reaction, in place.

ghost use Rattle.std.specs.Prelude.{◌≡◌, ◌+◌, ◌^◌, ◌<◌, ◌≤◌, IfOk, OnOk};
ghost use Rattle.ipdl_term.specs.Fitting.{LiftFitsInExpression, LiftFitsInReaction};
ghost use Rattle.ipdl_term.specs.Sizes.{saturated, expression_nodes, reaction_nodes, greatest_in_expression, reaction_binders};
ghost use Rattle.ipdl_term.specs.Variables.{lifted_expression, lifted_reaction, put_expression, put_reaction};
ghost use Rattle.ipdl_term.specs.Views.{expression_of, reaction_of};

use ipdl_base::NoMemory;
use ipdl_term::{Expr, React, lift_expr};
use std::alloc::Global;

// Each variable of the expression from the number on grows by one.
fn lift_in_expr(term: &mut Expr, from: u32)
    requires { LiftFitsInExpression (expression_of term.old) from 1 }
    ensures { expression_of term.new ≡ lifted_expression (expression_of term.old) from 1 }
{
    match term {
        Expr::Lit(_) | Expr::Outer(_) => {}
        Expr::Var(n) => {
            if *n >= from {
                *n += 1;
            }
        }
        Expr::Apply(_, e) => lift_in_expr(e, from),
        Expr::Xor(a, b) => {
            lift_in_expr(a, from);
            lift_in_expr(b, from);
        }
        Expr::And(a, b) => {
            lift_in_expr(a, from);
            lift_in_expr(b, from);
        }
        Expr::Not(e) => lift_in_expr(e, from),
        Expr::Cat(a, b) => {
            lift_in_expr(a, from);
            lift_in_expr(b, from);
        }
        Expr::Cut(_, _, e) => lift_in_expr(e, from),
        Expr::Same(a, b) => {
            lift_in_expr(a, from);
            lift_in_expr(b, from);
        }
        Expr::Mux(c, a, b) => {
            lift_in_expr(c, from);
            lift_in_expr(a, from);
            lift_in_expr(b, from);
        }
    }
}

// Each variable of the reaction from the number on grows by one.
pub(crate) fn lift(term: &mut React, from: u32)
    requires fits { LiftFitsInReaction (reaction_of term.old) from 1 }
    requires depth { from + reaction_binders (reaction_of term.old) < 2 ^ 32 }
    ensures { reaction_of term.new ≡ lifted_reaction (reaction_of term.old) from 1 }
{
    match term {
        React::Ret(e) => lift_in_expr(e, from),
        React::Flip(_) | React::Read(_) => {}
        React::Cond(e, r, s) => {
            lift_in_expr(e, from);
            lift(r, from);
            lift(s, from);
        }
        React::Bind(_, r, s) => {
            lift(r, from);
            lift(s, from + 1);
        }
    }
}

// The value in the place of the variable of the depth, and each greater one is one less.
fn put_in_expr(alloc: Global, term: &mut Expr, depth: u32, value: &Expr) -> Result<(), NoMemory>
    requires { LiftFitsInExpression (expression_of value.now) 0 depth }
    ensures { OnOk result (expression_of term.new ≡ put_expression depth (expression_of term.old) (expression_of value.now)) }
{
    match term {
        Expr::Lit(_) | Expr::Outer(_) => {}
        Expr::Var(n) => {
            if *n > depth {
                *n -= 1;
            } else if *n == depth {
                *term = lift_expr(alloc, value, 0, depth)?;
            }
        }
        Expr::Apply(_, e) => put_in_expr(alloc, e, depth, value)?,
        Expr::Xor(a, b) => {
            put_in_expr(alloc, a, depth, value)?;
            put_in_expr(alloc, b, depth, value)?;
        }
        Expr::And(a, b) => {
            put_in_expr(alloc, a, depth, value)?;
            put_in_expr(alloc, b, depth, value)?;
        }
        Expr::Not(e) => put_in_expr(alloc, e, depth, value)?,
        Expr::Cat(a, b) => {
            put_in_expr(alloc, a, depth, value)?;
            put_in_expr(alloc, b, depth, value)?;
        }
        Expr::Cut(_, _, e) => put_in_expr(alloc, e, depth, value)?,
        Expr::Same(a, b) => {
            put_in_expr(alloc, a, depth, value)?;
            put_in_expr(alloc, b, depth, value)?;
        }
        Expr::Mux(c, a, b) => {
            put_in_expr(alloc, c, depth, value)?;
            put_in_expr(alloc, a, depth, value)?;
            put_in_expr(alloc, b, depth, value)?;
        }
    }
    Ok(())
}

// The value in the place of the variable of the depth, and each greater one is one less.
pub(crate) fn put(alloc: Global, term: &mut React, depth: u32, value: &Expr) -> Result<(), NoMemory>
    requires { greatest_in_expression (expression_of value.now) + depth + reaction_binders (reaction_of term.old) < 2 ^ 32 }
    ensures { OnOk result (reaction_of term.new ≡ put_reaction depth (reaction_of term.old) (expression_of value.now)) }
{
    match term {
        React::Ret(e) => put_in_expr(alloc, e, depth, value)?,
        React::Flip(_) | React::Read(_) => {}
        React::Cond(e, r, s) => {
            put_in_expr(alloc, e, depth, value)?;
            put(alloc, r, depth, value)?;
            put(alloc, s, depth, value)?;
        }
        React::Bind(_, r, s) => {
            put(alloc, r, depth, value)?;
            put(alloc, s, depth + 1, value)?;
        }
    }
    Ok(())
}

// ---- counts

// The nodes of the expression with a value, of so many nodes, in the place of the variable of the
// depth.
#[tactic(auto, using(crate::proofs::Counting::lifted_nodes))]
fn expr_nodes_with(term: &Expr, depth: u32, value: &Expr, value_nodes: u64) -> u64
    requires { value_nodes ≡ saturated (expression_nodes (expression_of value.now)) }
    ensures { result ≡ saturated (expression_nodes (put_expression depth (expression_of term.now) (expression_of value.now))) }
{
    match term {
        Expr::Lit(_) | Expr::Outer(_) => 1,
        Expr::Var(n) => if *n == depth { value_nodes } else { 1 },
        Expr::Apply(_, e) | Expr::Not(e) | Expr::Cut(_, _, e) => {
            expr_nodes_with(e, depth, value, value_nodes).saturating_add(1)
        }
        Expr::Xor(a, b) | Expr::And(a, b) | Expr::Cat(a, b) | Expr::Same(a, b) => {
            expr_nodes_with(a, depth, value, value_nodes)
                .saturating_add(expr_nodes_with(b, depth, value, value_nodes))
                .saturating_add(1)
        }
        Expr::Mux(c, a, b) => expr_nodes_with(c, depth, value, value_nodes)
            .saturating_add(expr_nodes_with(a, depth, value, value_nodes))
            .saturating_add(expr_nodes_with(b, depth, value, value_nodes))
            .saturating_add(1),
    }
}

// The nodes that `put` would leave, where the value has so many. The count stands at the last
// `u64` where it is larger.
pub(crate) fn nodes_with(term: &React, depth: u32, value: &Expr, value_nodes: u64) -> u64
    requires nodes { value_nodes ≡ saturated (expression_nodes (expression_of value.now)) }
    requires depth { depth + reaction_binders (reaction_of term.now) < 2 ^ 32 }
    ensures { result ≡ saturated (reaction_nodes (put_reaction depth (reaction_of term.now) (expression_of value.now))) }
{
    match term {
        React::Ret(e) => expr_nodes_with(e, depth, value, value_nodes).saturating_add(1),
        React::Flip(_) | React::Read(_) => 1,
        React::Cond(e, r, s) => expr_nodes_with(e, depth, value, value_nodes)
            .saturating_add(nodes_with(r, depth, value, value_nodes))
            .saturating_add(nodes_with(s, depth, value, value_nodes))
            .saturating_add(1),
        React::Bind(_, r, s) => nodes_with(r, depth, value, value_nodes)
            .saturating_add(nodes_with(s, depth + 1, value, value_nodes))
            .saturating_add(1),
    }
}
