//! The right side of a rule, before it is made: what it is put together from.

ghost use Rattle.std.specs.Prelude.{◌≡◌, IfOk};
ghost use Rattle.ipdl_rules_p.specs.Answers.{Answers};
ghost use Rattle.ipdl_rules_p.specs.Matching.{gives};
ghost use Rattle.ipdl_rules_p.specs.RightSides.{Fits, right_side_of};
ghost use Rattle.ipdl_term.specs.Sizes.{saturated, protocol_nodes};
ghost use Rattle.ipdl_term.specs.Views.{protocol_of};

use crate::fault::RuleFault;
use crate::new_react::NewReact;
use crate::renamed::renamed_proto;
use ipdl_base::{Limit, Name, NoMemory};
use ipdl_term::{Proto, boxed, copy_proto, proto_nodes};
use std::alloc::Global;

// What is to be made, over parts of the left side.
#[derive(Clone, Copy)]
pub(crate) enum RightSide<'a> {
    // A copy of a part.
    Part(&'a Proto),
    // A part with another name for its free channel: the old name and the new one.
    Renamed(&'a Proto, &'a Name, &'a Name),
    // A new reaction that writes the channel.
    Out(&'a Name, NewReact<'a>),
    // Two right sides side by side.
    Par(&'a RightSide<'a>, &'a RightSide<'a>),
    // A right side with this channel, of this width in bits, hidden.
    Hide(&'a Name, u8, &'a RightSide<'a>),
}

impl RightSide<'_> {
    // How many nodes it will have. The count stands at the last `u64` where it is larger.
    #[tactic(auto, using(crate::proofs::RenamingOne::renamed_sizes))]
    fn nodes(&self) -> u64
        ensures { result ≡ saturated (protocol_nodes (right_side_of self.now)) }
    {
        match self {
            RightSide::Part(p) | RightSide::Renamed(p, _, _) => proto_nodes(p),
            RightSide::Out(_, r) => r.nodes().saturating_add(1),
            RightSide::Par(p, q) => p.nodes().saturating_add(q.nodes()).saturating_add(1),
            RightSide::Hide(_, _, p) => p.nodes().saturating_add(1),
        }
    }

    // The protocol, in memory of its own.
    fn copied(&self, alloc: Global) -> Result<Proto, NoMemory>
        requires { Fits self.now }
        ensures { IfOk result (λ made. protocol_of made ≡ right_side_of self.now) }
    {
        Ok(match self {
            RightSide::Part(p) => copy_proto(alloc, p)?,
            RightSide::Renamed(p, c, d) => renamed_proto(alloc, p, c, d)?,
            RightSide::Out(c, r) => Proto::Out(c.copy(alloc)?, r.made(alloc)?),
            RightSide::Par(p, q) => Proto::Par(
                boxed(alloc, p.copied(alloc))?,
                boxed(alloc, q.copied(alloc))?,
            ),
            RightSide::Hide(c, w, p) => Proto::Hide(
                c.copy(alloc)?,
                *w,
                boxed(alloc, p.copied(alloc))?,
            ),
        })
    }

    // The protocol, unless it has too many nodes, which are counted before anything is made.
    pub(crate) fn made(&self, alloc: Global) -> Result<Proto, RuleFault>
        requires { Fits self.now }
        ensures { Answers result (gives (right_side_of self.now)) }
    {
        if self.nodes() > Limit::Nodes.number() {
            return Err(RuleFault::Nodes);
        }
        match self.copied(alloc) {
            Ok(made) => Ok(made),
            Err(_) => Err(RuleFault::Memory),
        }
    }
}
