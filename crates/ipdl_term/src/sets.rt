//! The sets of channels that a term reads and writes.

ghost use Rattle.std.specs.Prelude.{[], ◌∷◌, IfOk};
ghost use Rattle.ipdl_term.specs.Views.{reaction_of, protocol_of};
ghost use Rattle.ipdl_term.specs.Channels.{SameSet, reads, must_reads, outputs, free_channels};

use crate::names::Names;
use crate::protocol::Proto;
use crate::reaction::React;
use ipdl_base::{Name, NoMemory};
use std::alloc::Global;

// The set of one name.
fn single(alloc: Global, name: &Name) -> Result<Names, NoMemory>
    ensures { IfOk result (λ names. SameSet names (name.now ∷ [])) }
{
    let mut names = Names::empty(alloc);
    names.add(name.copy(alloc)?)?;
    Ok(names)
}

/// Every channel of a `read` in the reaction.
pub fn reads(alloc: Global, term: &React) -> Result<Names, NoMemory>
    ensures { IfOk result (λ names. SameSet names (reads (reaction_of term.now))) }
{
    match term {
        React::Ret(_) | React::Flip(_) => Ok(Names::empty(alloc)),
        React::Read(c) => single(alloc, c),
        React::Cond(_, r, s) => reads(alloc, r)?.join(reads(alloc, s)?),
        React::Bind(_, r, s) => reads(alloc, r)?.join(reads(alloc, s)?),
    }
}

/// The channels that are read on every way through the reaction.
pub fn must(alloc: Global, term: &React) -> Result<Names, NoMemory>
    ensures { IfOk result (λ names. SameSet names (must_reads (reaction_of term.now))) }
{
    match term {
        React::Ret(_) | React::Flip(_) => Ok(Names::empty(alloc)),
        React::Read(c) => single(alloc, c),
        React::Cond(_, r, s) => {
            let mut names = must(alloc, r)?;
            names.keep_common(&must(alloc, s)?);
            Ok(names)
        }
        React::Bind(_, r, s) => must(alloc, r)?.join(must(alloc, s)?),
    }
}

/// The channels that the protocol writes and does not hide.
pub fn outs(alloc: Global, proto: &Proto) -> Result<Names, NoMemory>
    ensures { IfOk result (λ names. SameSet names (outputs (protocol_of proto.now))) }
{
    match proto {
        Proto::Nil => Ok(Names::empty(alloc)),
        Proto::Out(c, _) => single(alloc, c),
        Proto::Par(p, q) => outs(alloc, p)?.join(outs(alloc, q)?),
        Proto::Hide(c, _, p) => {
            let mut written = outs(alloc, p)?;
            written.remove(c);
            Ok(written)
        }
    }
}

/// The channels that the protocol writes or reads and does not hide there.
pub fn free(alloc: Global, proto: &Proto) -> Result<Names, NoMemory>
    ensures { IfOk result (λ names. SameSet names (free_channels (protocol_of proto.now))) }
{
    match proto {
        Proto::Nil => Ok(Names::empty(alloc)),
        Proto::Out(c, r) => single(alloc, c)?.join(reads(alloc, r)?),
        Proto::Par(p, q) => free(alloc, p)?.join(free(alloc, q)?),
        Proto::Hide(c, _, p) => {
            let mut names = free(alloc, p)?;
            names.remove(c);
            Ok(names)
        }
    }
}
