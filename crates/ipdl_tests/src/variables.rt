//! Variables: lifting them, putting values for them, settling them, and the limit on nodes.

ghost use Rattle.std.specs.Prelude.{◌≡◌, IfOk};
ghost use Rattle.ipdl_term.specs.Views.{expression_of, reaction_of};
ghost use Rattle.ipdl_term.specs.Terms.{variable, exclusive, flipping, returning, binding};

use ipdl_base::{Name, NoMemory};
use ipdl_term::{
    Ctx, Expr, Part, Proto, React, SettleFault, TermFault, boxed, lift_expr, lift_react, plug,
    put_expr, put_react, settle, unsettled_in_expr, uses,
};
use std::alloc::Global;

// Whether the term was made, and is the wanted one.
fn is_made<T: PartialEq + Drop, E: Drop>(made: Result<T, E>, wanted: Result<T, NoMemory>) -> bool {
    match (&made, &wanted) {
        (Ok(term), Ok(want)) => *term == *want,
        _ => false,
    }
}

// The sum of two variables. The calls below want to know how great those of their terms are.
fn pair(alloc: Global, a: u32, b: u32) -> Result<Expr, NoMemory>
    ensures { IfOk result (λ e. expression_of e ≡ exclusive (variable a) (variable b)) }
{
    Ok(Expr::Xor(
        boxed(alloc, Ok(Expr::Var(a)))?,
        boxed(alloc, Ok(Expr::Var(b)))?,
    ))
}

// The sum of two variables as a reaction.
fn sum(alloc: Global, a: u32, b: u32) -> Result<React, NoMemory>
    ensures { IfOk result (λ r. reaction_of r ≡ returning (exclusive (variable a) (variable b))) }
{
    Ok(React::Ret(pair(alloc, a, b)?))
}

// A random bit, and then the sum of two variables under it.
fn pair_under(alloc: Global, a: u32, b: u32) -> Result<React, NoMemory>
    ensures { IfOk result (λ r. reaction_of r ≡ binding 1 (flipping 1) (returning (exclusive (variable a) (variable b)))) }
{
    Ok(React::Bind(
        1,
        boxed(alloc, Ok(React::Flip(1)))?,
        boxed(alloc, sum(alloc, a, b))?,
    ))
}

// ---- lifting

fn lifts(alloc: Global) -> bool {
    is_made(lift_expr(alloc, &Expr::Var(0), 0, 1), Ok(Expr::Var(1)))
}

fn lifts_under_binders(alloc: Global) -> Option<bool> {
    let under = boxed(alloc, pair_under(alloc, 0, 1)).ok()?;
    Some(is_made(lift_react(alloc, &under, 0, 1), pair_under(alloc, 0, 2)))
}

#[test]
fn lifts_variables(rt: HostRuntime) {
    assert!(rt; lifts(rt.alloc()) && lifts_under_binders(rt.alloc()) == Some(true));
}

// ---- putting

fn puts(alloc: Global) -> Option<bool> {
    let body = boxed(alloc, pair(alloc, 0, 1)).ok()?;
    Some(is_made(put_expr(alloc, &body, &Expr::Var(7)), pair(alloc, 7, 0)))
}

fn puts_in_reactions(alloc: Global) -> Option<bool> {
    let body = boxed(alloc, sum(alloc, 0, 1)).ok()?;
    Some(is_made(put_react(alloc, &body, &Expr::Var(0)), sum(alloc, 0, 0)))
}

fn puts_under_binders(alloc: Global) -> Option<bool> {
    let under = boxed(alloc, pair_under(alloc, 0, 1)).ok()?;
    Some(is_made(
        put_react(alloc, &under, &Expr::Var(4)),
        pair_under(alloc, 0, 5),
    ))
}

#[test]
fn puts_values_for_variables(rt: HostRuntime) {
    let alloc = rt.alloc();
    assert!(rt; puts(alloc) == Some(true) && puts_in_reactions(alloc) == Some(true));
    assert!(rt; puts_under_binders(alloc) == Some(true));
}

// ---- using and settling

fn uses_under_binders(alloc: Global) -> Option<bool> {
    let under = boxed(alloc, pair_under(alloc, 0, 1)).ok()?;
    Some(uses(&under, 0) && !uses(&under, 1))
}

fn settles(alloc: Global) -> Option<bool> {
    let part = boxed(alloc, Ok(Part::R(React::Ret(Expr::Outer(0))))).ok()?;
    let wanted = Ok(Part::R(React::Ret(Expr::Var(1))));
    Some(is_made(settle(alloc, 2, &part), wanted))
}

fn refuses(alloc: Global) -> Option<SettleFault> {
    let part = boxed(alloc, Ok(Part::R(React::Ret(Expr::Outer(2))))).ok()?;
    settle(alloc, 2, &part).err()
}

#[test]
fn uses_and_settles_variables(rt: HostRuntime) {
    let alloc = rt.alloc();
    assert!(rt;
        unsettled_in_expr(2, &Expr::Outer(2)) == Some(2)
            && unsettled_in_expr(2, &Expr::Outer(1)).is_none()
    );
    assert!(rt; uses_under_binders(alloc) == Some(true));
    assert!(rt; settles(alloc) == Some(true));
    assert!(rt; refuses(alloc) == Some(SettleFault::NoVariable { number: 2 }));
}

// ---- the limit on nodes

// The sum of the term with itself.
fn doubled(alloc: Global, term: &Expr) -> Result<Expr, TermFault> {
    match &pair(alloc, 0, 0) {
        Ok(body) => put_expr(alloc, body, term),
        Err(_) => Err(TermFault::Memory),
    }
}

// A term of 4,095 nodes: eleven times the sum of the term with itself.
fn large(alloc: Global) -> Result<Expr, TermFault> {
    let mut term = Expr::Var(0);
    for _ in 0..11 {
        term = doubled(alloc, &term)?;
    }
    Ok(term)
}

fn not(alloc: Global) -> Result<Expr, NoMemory> {
    Ok(Expr::Not(boxed(alloc, Ok(Expr::Var(0)))?))
}

// Whether the value is put into the body, or why not.
fn is_put(
    alloc: Global,
    body: Result<Expr, NoMemory>,
    value: &Expr,
    fault: Option<TermFault>,
) -> bool {
    match &body {
        Ok(body) => put_expr(alloc, body, value).err() == fault,
        Err(_) => false,
    }
}

// 4,096 nodes and 4,097.
fn puts_at_most(alloc: Global, value: &Expr) -> bool {
    is_put(alloc, not(alloc), value, None)
        && is_put(alloc, pair(alloc, 0, 1), value, Some(TermFault::Nodes))
}

fn out(alloc: Global, term: Expr) -> Option<Box<Proto>> {
    let name = Name::read(alloc, "a").ok()?;
    boxed(alloc, Ok(Proto::Out(name, React::Ret(term)))).ok()
}

// 4,097 nodes.
fn plugs_at_most(alloc: Global, value: Expr) -> Option<bool> {
    let whole = out(alloc, value)?;
    Some(plug(alloc, &Ctx::Hole, &whole).err() == Some(TermFault::Nodes))
}

fn keeps_the_limit(alloc: Global) -> Option<bool> {
    let value = large(alloc).ok()?;
    Some(puts_at_most(alloc, &value) && plugs_at_most(alloc, value)?)
}

#[test]
fn makes_at_most_4096_nodes(rt: HostRuntime) {
    assert!(rt; keeps_the_limit(rt.alloc()) == Some(true));
}
