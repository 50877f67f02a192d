//! The right side of a rule, before it is made: what it is put together from.

ghost use Rattle.std.specs.Prelude.{◌≡◌, [], IfOk};
ghost use Rattle.ipdl_rules_r.specs.Answers.{Answers};
ghost use Rattle.ipdl_rules_r.specs.Matching.{gives};
ghost use Rattle.ipdl_rules_r.specs.RightSides.{Fits, FitsPut, FitsWith, new_value_of, right_side_of};
ghost use Rattle.ipdl_term.specs.Rewriting.{joined_reaction};
ghost use Rattle.ipdl_term.specs.Sizes.{saturated, expression_nodes, reaction_nodes};
ghost use Rattle.ipdl_term.specs.Terms.{literal, variable};
ghost use Rattle.ipdl_term.specs.Variables.{lifted_reaction, put_reaction};
ghost use Rattle.ipdl_term.specs.Views.{expression_of, reaction_of};

use crate::fault::RuleFault;
use crate::weighing::weighed_react;
use ipdl_base::{Bits, Limit, NoMemory};
use ipdl_term::{
    Expr, React, boxed, copy_expr, copy_react, expr_nodes, lift_react, put_react, react_nodes,
};
use std::alloc::Global;

// An expression that comes to stand for a variable.
#[derive(Clone, Copy)]
pub(crate) enum NewValue<'a> {
    // A copy of a part.
    Part(&'a Expr),
    // The variable of this number.
    Var(u32),
    // Variable 0 masked with the expression.
    Masked(&'a Expr),
    // The symbol at variable 0.
    Mapped(u32),
    // From this bit on so many bits of the variable of this number.
    Cut(u8, u8, u32),
    // The literal of no bits.
    NoBits,
}

// The literal of no bits.
pub(crate) fn no_bits() -> Expr
    ensures { expression_of result ≡ literal [] }
{
    Expr::Lit(Bits::new(0, 0).unwrap())
}

impl NewValue<'_> {
    // How many nodes it will have. The count stands at the last `u64` where it is larger.
    fn nodes(&self) -> u64
        ensures { result ≡ saturated (expression_nodes (new_value_of self.now)) }
    {
        match self {
            NewValue::Part(e) => expr_nodes(e),
            NewValue::Var(_) | NewValue::NoBits => 1,
            NewValue::Masked(e) => expr_nodes(e).saturating_add(2),
            NewValue::Mapped(_) | NewValue::Cut(_, _, _) => 2,
        }
    }

    // The expression, in memory of its own.
    fn made(&self, alloc: Global) -> Result<Expr, NoMemory>
        ensures { IfOk result (λ made. expression_of made ≡ new_value_of self.now) }
    {
        Ok(match self {
            NewValue::Part(e) => copy_expr(alloc, e)?,
            NewValue::Var(n) => Expr::Var(*n),
            NewValue::Masked(e) => Expr::Xor(
                boxed(alloc, Ok(Expr::Var(0)))?,
                boxed(alloc, copy_expr(alloc, e))?,
            ),
            NewValue::Mapped(f) => Expr::Apply(*f, boxed(alloc, Ok(Expr::Var(0)))?),
            NewValue::Cut(i, n, x) => Expr::Cut(*i, *n, boxed(alloc, Ok(Expr::Var(*x)))?),
            NewValue::NoBits => no_bits(),
        })
    }
}

// The reaction with the value in the place of variable 0. The caller has counted its nodes.
fn put(alloc: Global, body: &React, value: &NewValue<'_>) -> Result<React, NoMemory>
    requires { FitsPut (reaction_of body.now) (new_value_of value.now) }
    ensures { IfOk result (λ made. reaction_of made ≡ put_reaction 0 (reaction_of body.now) (new_value_of value.now)) }
{
    let value = value.made(alloc)?;
    match put_react(alloc, body, &value) {
        Ok(made) => Ok(made),
        Err(_) => Err(NoMemory),
    }
}

// The same of the reaction with its variables from the number on grown by one.
#[tactic(auto, using(crate::proofs::Weights::fitting))]
fn put_lifted(
    alloc: Global,
    body: &React,
    from: u32,
    value: &NewValue<'_>,
) -> Result<React, NoMemory>
    requires { FitsWith (reaction_of body.now) (new_value_of value.now) }
    ensures { IfOk result (λ made. reaction_of made ≡ put_reaction 0 (lifted_reaction (reaction_of body.now) from 1) (new_value_of value.now)) }
{
    let lifted = lift_react(alloc, body, from, 1)?;
    put(alloc, &lifted, value)
}

// The reaction with one variable in the place of its two innermost ones.
#[tactic(auto, using(crate::proofs::Weights::fitting))]
fn joined(alloc: Global, v: u8, w: u8, body: &React) -> Result<React, NoMemory>
    requires { FitsWith (reaction_of body.now) (variable 1) }
    ensures { IfOk result (λ made. reaction_of made ≡ joined_reaction v w (reaction_of body.now)) }
{
    let with_second = put_lifted(alloc, body, 2, &NewValue::Cut(v, w, 1))?;
    put(alloc, &with_second, &NewValue::Cut(0, v, 0))
}

// What is to be made, over parts of the left side.
#[derive(Clone, Copy)]
pub(crate) enum RightSide<'a> {
    // A copy of a part.
    Part(&'a React),
    // A part with its variables from the number on grown by one.
    Lifted(&'a React, u32),
    // A part without variable 0.
    Lowered(&'a React),
    // A part with its two innermost variables exchanged.
    Exchanged(&'a React),
    // A part with the value in the place of variable 0, which goes.
    Put(&'a React, NewValue<'a>),
    // A part with the value in the place of variable 0, which the value may have.
    Replaced(&'a React, NewValue<'a>),
    // A part with one variable of so many bits in the place of its two innermost ones.
    Joined(u8, u8, &'a React),
    // So many fresh bits.
    Flip(u8),
    // A test between two right sides.
    Cond(&'a Expr, &'a RightSide<'a>, &'a RightSide<'a>),
    // Two right sides one after the other.
    Bind(u8, &'a RightSide<'a>, &'a RightSide<'a>),
}

impl RightSide<'_> {
    // How many nodes it will have. The count stands at the last `u64` where it is larger.
    #[tactic(auto, using(crate::proofs::Weights::weights))]
    fn nodes(&self) -> u64
        requires { Fits self.now }
        ensures { result ≡ saturated (reaction_nodes (right_side_of self.now)) }
    {
        match self {
            RightSide::Part(r)
            | RightSide::Lifted(r, _)
            | RightSide::Lowered(r)
            | RightSide::Exchanged(r) => react_nodes(r),
            RightSide::Put(r, v) | RightSide::Replaced(r, v) => weighed_react(r, 0, v.nodes(), 1),
            RightSide::Joined(_, _, r) => weighed_react(r, 0, 2, 2),
            RightSide::Flip(_) => 1,
            RightSide::Cond(e, r, s) => expr_nodes(e)
                .saturating_add(r.nodes())
                .saturating_add(s.nodes())
                .saturating_add(1),
            RightSide::Bind(_, r, s) => r.nodes().saturating_add(s.nodes()).saturating_add(1),
        }
    }

    // The reaction, in memory of its own.
    #[tactic(auto, using(crate::proofs::Weights::fitting))]
    fn copied(&self, alloc: Global) -> Result<React, NoMemory>
        requires { Fits self.now }
        ensures { IfOk result (λ made. reaction_of made ≡ right_side_of self.now) }
    {
        match self {
            RightSide::Part(r) => copy_react(alloc, r),
            RightSide::Lifted(r, from) => lift_react(alloc, r, *from, 1),
            RightSide::Lowered(r) => put(alloc, r, &NewValue::NoBits),
            RightSide::Exchanged(r) => put_lifted(alloc, r, 2, &NewValue::Var(1)),
            RightSide::Put(r, v) => put(alloc, r, v),
            RightSide::Replaced(r, v) => put_lifted(alloc, r, 1, v),
            RightSide::Joined(v, w, r) => joined(alloc, *v, *w, r),
            RightSide::Flip(w) => Ok(React::Flip(*w)),
            RightSide::Cond(e, r, s) => {
                let one = boxed(alloc, r.copied(alloc))?;
                let other = boxed(alloc, s.copied(alloc))?;
                Ok(React::Cond(copy_expr(alloc, e)?, one, other))
            }
            RightSide::Bind(w, r, s) => Ok(React::Bind(
                *w,
                boxed(alloc, r.copied(alloc))?,
                boxed(alloc, s.copied(alloc))?,
            )),
        }
    }

    // The reaction, unless it has too many nodes, which are counted before anything is made.
    pub(crate) fn made(&self, alloc: Global) -> Result<React, RuleFault>
        requires { Fits self.now }
        ensures { Answers result (gives (right_side_of self.now)) }
    {
        if self.nodes() > Limit::Nodes.number() {
            return Err(RuleFault::Nodes);
        }
        match self.copied(alloc) {
            Ok(made) => Ok(made),
            Err(_) => Err(RuleFault::Memory),
        }
    }
}
