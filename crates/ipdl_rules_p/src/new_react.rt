//! A reaction of a right side, before it is made: what it is put together from.

ghost use Rattle.std.specs.Prelude.{◌≡◌, ◌+◌, ◌^◌, ◌<◌, [], IfOk};
ghost use Rattle.ipdl_rules_p.specs.RightSides.{ReactionFits, new_reaction_of};
ghost use Rattle.ipdl_term.specs.Rewriting.{lowered_reaction};
ghost use Rattle.ipdl_term.specs.Sizes.{saturated, reaction_binders, reaction_nodes, greatest_in_reaction};
ghost use Rattle.ipdl_term.specs.Terms.{literal, reading, binding};
ghost use Rattle.ipdl_term.specs.Variables.{lifted_reaction};
ghost use Rattle.ipdl_term.specs.Views.{expression_of, reaction_of};

use crate::filling::{filled, filled_nodes};
use ipdl_base::{Bits, Name, NoMemory};
use ipdl_term::{Expr, React, boxed, copy_react, lift_react, put_react, react_nodes};
use std::alloc::Global;

// What is to be made, over parts of the left side.
#[derive(Clone, Copy)]
pub(crate) enum NewReact<'a> {
    // A copy of a part.
    Part(&'a React),
    // The first, with the second at the place.
    Filled(&'a React, &'a [u32], &'a React),
    // A part without variable 0.
    Lowered(&'a React),
    // A part after the channel of this width in bits has been read.
    After(&'a Name, u8, &'a React),
    // The value of a channel.
    Read(&'a Name),
}

// The literal of no bits.
fn no_bits() -> Expr
    ensures { expression_of result ≡ literal [] }
{
    Expr::Lit(Bits::new(0, 0).unwrap())
}

// The reaction without variable 0. The caller has counted its nodes.
fn lowered(alloc: Global, term: &React) -> Result<React, NoMemory>
    requires { greatest_in_reaction (reaction_of term.now) + reaction_binders (reaction_of term.now) < 2 ^ 32 }
    ensures { IfOk result (λ made. reaction_of made ≡ lowered_reaction (reaction_of term.now)) }
{
    match put_react(alloc, term, &no_bits()) {
        Ok(made) => Ok(made),
        Err(_) => Err(NoMemory),
    }
}

// The reaction after the channel has been read: its variables grow by one.
#[tactic(auto, using(crate::proofs::ChangedVariables::lift_fits))]
fn after(alloc: Global, channel: &Name, width: u8, term: &React) -> Result<React, NoMemory>
    requires { greatest_in_reaction (reaction_of term.now) + 1 < 2 ^ 32 }
    ensures { IfOk result (λ made. reaction_of made ≡
        binding width (reading channel.now) (lifted_reaction (reaction_of term.now) 0 1)) }
{
    let rest = boxed(alloc, lift_react(alloc, term, 0, 1))?;
    let first = Box::new(alloc, React::Read(channel.copy(alloc)?))?;
    Ok(React::Bind(width, first, rest))
}

impl NewReact<'_> {
    // How many nodes it will have. The count stands at the last `u64` where it is larger.
    #[tactic(auto, using(crate::proofs::ChangedVariables::nodes))]
    pub(crate) fn nodes(&self) -> u64
        ensures { result ≡ saturated (reaction_nodes (new_reaction_of self.now)) }
    {
        match self {
            NewReact::Part(r) | NewReact::Lowered(r) => react_nodes(r),
            NewReact::Filled(k, place, r) => filled_nodes(k, place, r),
            NewReact::After(_, _, r) => react_nodes(r).saturating_add(2),
            NewReact::Read(_) => 1,
        }
    }

    // The reaction, in memory of its own.
    pub(crate) fn made(&self, alloc: Global) -> Result<React, NoMemory>
        requires { ReactionFits self.now }
        ensures { IfOk result (λ made. reaction_of made ≡ new_reaction_of self.now) }
    {
        match self {
            NewReact::Part(r) => copy_react(alloc, r),
            NewReact::Filled(k, place, r) => filled(alloc, k, place, r),
            NewReact::Lowered(r) => lowered(alloc, r),
            NewReact::After(c, w, r) => after(alloc, c, *w, r),
            NewReact::Read(c) => Ok(React::Read(c.copy(alloc)?)),
        }
    }
}
