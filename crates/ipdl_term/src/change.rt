//! Changes: what comes to stand for the variables of a term. One walk makes the changed term, in
//! memory of its own.

ghost use Rattle.std.specs.Prelude.{◌≡◌, suc, IfOk};
ghost use Rattle.ipdl_term.specs.Views.{expression_of, reaction_of, protocol_of};
ghost use Rattle.ipdl_term.specs.Terms.{variable};
ghost use Rattle.ipdl_term.specs.Changes.{change_of, changed_variable, changed_outer_variable, changed_expression, changed_reaction, changed_protocol, VariableFits, OuterVariableFits, ChangeFitsInExpression, ChangeFitsInReaction, ChangeFitsInProtocol};

use crate::boxing::boxed;
use crate::expression::Expr;
use crate::protocol::Proto;
use crate::reaction::React;
use ipdl_base::NoMemory;
use std::alloc::Global;

/// A change of the variables of a term. What it makes of one goes by the depth, which grows by
/// one under each binder.
#[derive(Clone, Copy)]
pub enum Change<'a> {
    /// Each stays.
    Keep,
    /// Each from the number of the depth on grows by so much.
    Lift { by: u32 },
    /// This value stands for the one of the depth, and each greater one is one less.
    Put { value: &'a Expr },
    /// Each outer one becomes a variable, under as many binders as the depth says.
    Settle,
}

// The depth under one more binder. No memory holds more binders than a `u64` counts.
fn deeper(depth: u64) -> Result<u64, NoMemory>
    ensures { IfOk result (λ next. next ≡ suc depth) }
{
    depth.checked_add(1).ok_or(NoMemory)
}

// What stands for a variable.
#[cycle(change)]
#[tactic(auto, using(crate::proofs::ChangeFits::lift_fits, crate::proofs::ChangeLemmas::lifted))]
fn changed_var(
    alloc: Global,
    change: &Change<'_>,
    depth: u64,
    number: u32,
) -> Result<Expr, NoMemory>
    requires { VariableFits (change_of change.now) depth number }
    ensures { IfOk result (λ changed. expression_of changed ≡ changed_variable (change_of change.now) depth number) }
{
    match change {
        Change::Keep | Change::Settle => Ok(Expr::Var(number)),
        Change::Lift { by } => {
            Ok(Expr::Var(if u64::from(number) < depth {
                number
            } else {
                number + *by
            }))
        }
        Change::Put { value } => {
            if u64::from(number) < depth {
                Ok(Expr::Var(number))
            } else if u64::from(number) == depth {
                changed_expr(alloc, &Change::Lift { by: number }, 0, value)
            } else {
                Ok(Expr::Var(number - 1))
            }
        }
    }
}

// What stands for an outer variable.
fn changed_outer(change: &Change<'_>, depth: u64, number: u32) -> Expr
    requires { OuterVariableFits (change_of change.now) depth }
    ensures { expression_of result ≡ changed_outer_variable (change_of change.now) depth number }
{
    match change {
        Change::Keep | Change::Lift { .. } | Change::Put { .. } => Expr::Outer(number),
        Change::Settle => {
            Expr::Var(depth.saturating_sub(1).saturating_sub(u64::from(number)) as u32)
        }
    }
}

// The changed expression in a box. Made in a call of its own, it takes no room in the frames of
// the walk.
#[cycle(change)]
#[inline(never)]
fn changed_expr_box(
    alloc: Global,
    change: &Change<'_>,
    depth: u64,
    term: &Expr,
) -> Result<Box<Expr>, NoMemory>
    requires { ChangeFitsInExpression (change_of change.now) depth (expression_of term.now) }
    ensures { IfOk result (λ held. expression_of held.value ≡ changed_expression (change_of change.now) depth (expression_of term.now)) }
{
    boxed(alloc, changed_expr(alloc, change, depth, term))
}

/// The changed expression.
#[cycle(change)]
pub fn changed_expr(
    alloc: Global,
    change: &Change<'_>,
    depth: u64,
    term: &Expr,
) -> Result<Expr, NoMemory>
    requires { ChangeFitsInExpression (change_of change.now) depth (expression_of term.now) }
    ensures { IfOk result (λ changed. expression_of changed ≡ changed_expression (change_of change.now) depth (expression_of term.now)) }
{
    Ok(match term {
        Expr::Lit(bits) => Expr::Lit(*bits),
        Expr::Var(n) => changed_var(alloc, change, depth, *n)?,
        Expr::Outer(n) => changed_outer(change, depth, *n),
        Expr::Apply(f, e) => Expr::Apply(*f, changed_expr_box(alloc, change, depth, e)?),
        Expr::Xor(a, b) => Expr::Xor(
            changed_expr_box(alloc, change, depth, a)?,
            changed_expr_box(alloc, change, depth, b)?,
        ),
        Expr::And(a, b) => Expr::And(
            changed_expr_box(alloc, change, depth, a)?,
            changed_expr_box(alloc, change, depth, b)?,
        ),
        Expr::Not(a) => Expr::Not(changed_expr_box(alloc, change, depth, a)?),
        Expr::Cat(a, b) => Expr::Cat(
            changed_expr_box(alloc, change, depth, a)?,
            changed_expr_box(alloc, change, depth, b)?,
        ),
        Expr::Cut(i, n, a) => Expr::Cut(*i, *n, changed_expr_box(alloc, change, depth, a)?),
        Expr::Same(a, b) => Expr::Same(
            changed_expr_box(alloc, change, depth, a)?,
            changed_expr_box(alloc, change, depth, b)?,
        ),
        Expr::Mux(c, a, b) => Expr::Mux(
            changed_expr_box(alloc, change, depth, c)?,
            changed_expr_box(alloc, change, depth, a)?,
            changed_expr_box(alloc, change, depth, b)?,
        ),
    })
}

// The changed reaction in a box, likewise.
#[cycle(change_react)]
#[inline(never)]
fn changed_react_box(
    alloc: Global,
    change: &Change<'_>,
    depth: u64,
    term: &React,
) -> Result<Box<React>, NoMemory>
    requires { ChangeFitsInReaction (change_of change.now) depth (reaction_of term.now) }
    ensures { IfOk result (λ held. reaction_of held.value ≡ changed_reaction (change_of change.now) depth (reaction_of term.now)) }
{
    boxed(alloc, changed_react(alloc, change, depth, term))
}

/// The changed reaction.
#[cycle(change_react)]
pub fn changed_react(
    alloc: Global,
    change: &Change<'_>,
    depth: u64,
    term: &React,
) -> Result<React, NoMemory>
    requires { ChangeFitsInReaction (change_of change.now) depth (reaction_of term.now) }
    ensures { IfOk result (λ changed. reaction_of changed ≡ changed_reaction (change_of change.now) depth (reaction_of term.now)) }
{
    Ok(match term {
        React::Ret(e) => React::Ret(changed_expr(alloc, change, depth, e)?),
        React::Flip(w) => React::Flip(*w),
        React::Read(c) => React::Read(c.copy(alloc)?),
        React::Cond(e, r, s) => {
            let (one, other) = (
                changed_react_box(alloc, change, depth, r)?,
                changed_react_box(alloc, change, depth, s)?,
            );
            React::Cond(changed_expr(alloc, change, depth, e)?, one, other)
        }
        React::Bind(w, r, s) => {
            let under = deeper(depth)?;
            React::Bind(
                *w,
                changed_react_box(alloc, change, depth, r)?,
                changed_react_box(alloc, change, under, s)?,
            )
        }
    })
}

// The changed protocol in a box, likewise.
#[cycle(change_proto)]
#[inline(never)]
fn changed_proto_box(
    alloc: Global,
    change: &Change<'_>,
    depth: u64,
    proto: &Proto,
) -> Result<Box<Proto>, NoMemory>
    requires { ChangeFitsInProtocol (change_of change.now) depth (protocol_of proto.now) }
    ensures { IfOk result (λ held. protocol_of held.value ≡ changed_protocol (change_of change.now) depth (protocol_of proto.now)) }
{
    boxed(alloc, changed_proto(alloc, change, depth, proto))
}

/// The changed protocol.
#[cycle(change_proto)]
pub fn changed_proto(
    alloc: Global,
    change: &Change<'_>,
    depth: u64,
    proto: &Proto,
) -> Result<Proto, NoMemory>
    requires { ChangeFitsInProtocol (change_of change.now) depth (protocol_of proto.now) }
    ensures { IfOk result (λ changed. protocol_of changed ≡ changed_protocol (change_of change.now) depth (protocol_of proto.now)) }
{
    Ok(match proto {
        Proto::Nil => Proto::Nil,
        Proto::Out(c, r) => Proto::Out(c.copy(alloc)?, changed_react(alloc, change, depth, r)?),
        Proto::Par(p, q) => Proto::Par(
            changed_proto_box(alloc, change, depth, p)?,
            changed_proto_box(alloc, change, depth, q)?,
        ),
        Proto::Hide(c, w, p) => Proto::Hide(
            c.copy(alloc)?,
            *w,
            changed_proto_box(alloc, change, depth, p)?,
        ),
    })
}
