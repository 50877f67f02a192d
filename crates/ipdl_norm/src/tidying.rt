//! The call that makes the tidy form of a reaction. It begins with what comes last and puts each
//! part before what is made already, so that nothing is made that does not stay.

ghost use Rattle.std.specs.Prelude.{◌≡◌, ◌+◌, ◌^◌, ◌<◌, ◌≤◌, IfOk, true};
ghost use Rattle.ipdl_norm.specs.AtOnce.{at_once, is_action, returns_first};
ghost use Rattle.ipdl_norm.specs.Counted.{IsCounted, Makes};
ghost use Rattle.ipdl_norm.specs.Room.{HasRoom};
ghost use Rattle.ipdl_norm.specs.Tidied.{grafted, tidied};
ghost use Rattle.ipdl_term.specs.Sizes.{most_nodes, expression_nodes, reaction_nodes, greatest_in_expression, greatest_in_reaction, reaction_binders};
ghost use Rattle.ipdl_term.specs.Terms.{returning, reading, branching, binding};
ghost use Rattle.ipdl_term.specs.Variables.{put_reaction};
ghost use Rattle.ipdl_term.specs.Views.{expression_of, reaction_of};

use crate::change::{lift, nodes_with, put};
use ipdl_base::{Limit, Name, NoMemory};
use ipdl_term::{Expr, React, TermFault, boxed, copy_expr, expr_nodes};
use std::alloc::Global;

// A reaction that was made, and how many nodes it has.
#[derive(Drop)]
struct Counted {
    reaction: React,
    nodes: u64,
}

// ---- what is returned at once

// Whether the reaction returns its variable 0.
fn returns_first(term: &React) -> bool
    ensures { result ≡ returns_first (reaction_of term.now) }
{
    match term {
        React::Ret(Expr::Var(n)) => *n == 0,
        _ => false,
    }
}

// The variable that the tidy form returns, `Some(None)` where that is another expression, and
// `None` where it does something first. The walk ends at the first part that does.
fn at_once(term: &React) -> Option<Option<u32>>
    ensures { result ≡ at_once (tidied (reaction_of term.now)) }
{
    match term {
        React::Ret(Expr::Var(n)) => Some(Some(*n)),
        React::Ret(_) => Some(None),
        React::Flip(_) | React::Read(_) | React::Cond(_, _, _) => None,
        React::Bind(_, r, s) => {
            let first = at_once(r)?;
            match at_once(s)? {
                None => Some(None),
                Some(n) => Some(if n == 0 { first } else { Some(n - 1) }),
            }
        }
    }
}

// Whether the tidy form returns its variable 0.
fn tidied_returns_first(term: &React) -> bool
    ensures { result ≡ returns_first (tidied (reaction_of term.now)) }
{
    match at_once(term) {
        Some(Some(n)) => n == 0,
        _ => false,
    }
}

// ---- single parts

// The `ret` of an expression.
#[inline(never)]
fn returned(alloc: Global, e: &Expr) -> Result<Counted, TermFault>
    ensures { Makes result (returning (expression_of e.now)) }
{
    let nodes = expr_nodes(e).saturating_add(1);
    if nodes > Limit::Nodes.number() {
        return Err(TermFault::Nodes);
    }
    match copy_expr(alloc, e) {
        Ok(copy) => Ok(Counted {
            reaction: React::Ret(copy),
            nodes,
        }),
        Err(_) => Err(TermFault::Memory),
    }
}

// The `read` of a channel.
#[inline(never)]
fn read(alloc: Global, channel: &Name) -> Result<Counted, TermFault>
    ensures { Makes result (reading channel.now) }
{
    match channel.copy(alloc) {
        Ok(copy) => Ok(Counted {
            reaction: React::Read(copy),
            nodes: 1,
        }),
        Err(_) => Err(TermFault::Memory),
    }
}

// An `if` of an expression over arms that are made.
fn cond(alloc: Global, e: &Expr, one: React, other: React) -> Result<React, NoMemory>
    ensures { IfOk result (λ made. reaction_of made ≡ branching (expression_of e.now) (reaction_of one) (reaction_of other)) }
{
    let (one, other) = (boxed(alloc, Ok(one))?, boxed(alloc, Ok(other))?);
    Ok(React::Cond(copy_expr(alloc, e)?, one, other))
}

// The same, counted before it is made.
#[inline(never)]
fn branched(alloc: Global, e: &Expr, one: Counted, other: Counted) -> Result<Counted, TermFault>
    requires one { IsCounted one }
    requires other { IsCounted other }
    ensures { Makes result (branching (expression_of e.now) (reaction_of one.reaction) (reaction_of other.reaction)) }
{
    let nodes = expr_nodes(e).saturating_add(one.nodes + other.nodes + 1);
    if nodes > Limit::Nodes.number() {
        return Err(TermFault::Nodes);
    }
    match cond(alloc, e, one.reaction, other.reaction) {
        Ok(reaction) => Ok(Counted { reaction, nodes }),
        Err(_) => Err(TermFault::Memory),
    }
}

// ---- a part before what is made already

// A value before the rest: it stands for the rest's variable 0.
#[inline(never)]
fn put_before(alloc: Global, e: &Expr, rest: Counted) -> Result<Counted, TermFault>
    requires room { greatest_in_expression (expression_of e.now) + 0 + reaction_binders (reaction_of rest.reaction) < 2 ^ 32 }
    ensures { Makes result (put_reaction 0 (reaction_of rest.reaction) (expression_of e.now)) }
{
    let Counted { mut reaction, .. } = rest;
    let nodes = nodes_with(&reaction, 0, e, expr_nodes(e));
    if nodes > Limit::Nodes.number() {
        return Err(TermFault::Nodes);
    }
    match put(alloc, &mut reaction, 0, e) {
        Ok(()) => Ok(Counted { reaction, nodes }),
        Err(_) => Err(TermFault::Memory),
    }
}

// A `bind` of two parts that are made.
fn bind(alloc: Global, width: u8, first: React, rest: React) -> Result<React, NoMemory>
    ensures { IfOk result (λ made. reaction_of made ≡ binding width (reaction_of first) (reaction_of rest)) }
{
    Ok(React::Bind(width, boxed(alloc, Ok(first))?, boxed(alloc, Ok(rest))?))
}

// A `flip`, a `read` or an `if` before the rest.
#[inline(never)]
fn bound_before(
    alloc: Global,
    width: u8,
    first: Counted,
    rest: Counted,
) -> Result<Counted, TermFault>
    requires first { IsCounted first }
    requires rest { IsCounted rest }
    requires action { is_action (reaction_of first.reaction) ≡ true }
    ensures { Makes result (grafted width (reaction_of first.reaction) (reaction_of rest.reaction)) }
{
    if returns_first(&rest.reaction) {
        return Ok(first);
    }
    let nodes = first.nodes + rest.nodes + 1;
    if nodes > Limit::Nodes.number() {
        return Err(TermFault::Nodes);
    }
    match bind(alloc, width, first.reaction, rest.reaction) {
        Ok(reaction) => Ok(Counted { reaction, nodes }),
        Err(_) => Err(TermFault::Memory),
    }
}

// The tidy form of the reaction before the rest.
#[cycle(tidying)]
fn before(alloc: Global, width: u8, term: &React, rest: Counted) -> Result<Counted, TermFault>
    requires counted { IsCounted rest }
    requires room { HasRoom (binding width (reaction_of term.now) (reaction_of rest.reaction)) }
    ensures { Makes result (grafted width (tidied (reaction_of term.now)) (reaction_of rest.reaction)) }
{
    match term {
        React::Ret(e) => put_before(alloc, e, rest),
        React::Flip(_) | React::Read(_) | React::Cond(_, _, _) => {
            let first = tidy_counted(alloc, term)?;
            bound_before(alloc, width, first, rest)
        }
        React::Bind(v, q, s) => {
            if tidied_returns_first(s) {
                return before(alloc, width, q, rest);
            }
            let mut rest = rest;
            lift(&mut rest.reaction, 1);
            let rest = before(alloc, width, s, rest)?;
            before(alloc, *v, q, rest)
        }
    }
}

// The tidy form of an `if`. Made in a call of its own, it takes no room in the frames of the walk.
#[cycle(tidying)]
#[inline(never)]
fn tidy_cond(alloc: Global, e: &Expr, r: &React, s: &React) -> Result<Counted, TermFault>
    requires { HasRoom (branching (expression_of e.now) (reaction_of r.now) (reaction_of s.now)) }
    ensures { Makes result (branching (expression_of e.now) (tidied (reaction_of r.now)) (tidied (reaction_of s.now))) }
{
    let one = tidy_counted(alloc, r)?;
    let other = tidy_counted(alloc, s)?;
    branched(alloc, e, one, other)
}

// The tidy form of the reaction.
#[cycle(tidying)]
fn tidy_counted(alloc: Global, term: &React) -> Result<Counted, TermFault>
    requires { HasRoom (reaction_of term.now) }
    ensures { Makes result (tidied (reaction_of term.now)) }
{
    match term {
        React::Ret(e) => returned(alloc, e),
        React::Flip(w) => Ok(Counted {
            reaction: React::Flip(*w),
            nodes: 1,
        }),
        React::Read(c) => read(alloc, c),
        React::Cond(e, r, s) => tidy_cond(alloc, e, r, s),
        React::Bind(w, r, s) => {
            let rest = tidy_counted(alloc, s)?;
            before(alloc, *w, r, rest)
        }
    }
}

/// The tidy form of the reaction. Memory apart, `Nodes` is answered exactly where that is too
/// large. On the way nothing is made that has more than 4,096 nodes, however large what the tidy
/// form leaves out would be.
pub fn tidy(alloc: Global, term: &React) -> Result<React, TermFault>
    requires { greatest_in_reaction (reaction_of term.now) + reaction_binders (reaction_of term.now) < 2 ^ 32 }
    ensures value { IfOk result (λ made. reaction_of made ≡ tidied (reaction_of term.now)) }
    ensures within { IfOk result (λ made. reaction_nodes (reaction_of made) ≤ most_nodes) }
    ensures nodes { result ≡ Err TermFault.Nodes → most_nodes < reaction_nodes (tidied (reaction_of term.now)) }
{
    match tidy_counted(alloc, term) {
        Ok(made) => Ok(made.reaction),
        Err(fault) => Err(fault),
    }
}
