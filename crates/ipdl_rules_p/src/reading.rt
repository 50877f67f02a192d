//! Which channels a reaction reads, at which places and how often, found without taking memory.

ghost use Rattle.std.specs.Prelude.{◌≡◌, IfOk};
ghost use Rattle.ipdl_rules_p.specs.Matching.{is_read_at, is_within};
ghost use Rattle.ipdl_rules_p.specs.ReadPlaces.{read_count};
ghost use Rattle.ipdl_term.specs.Channels.{has, must_reads, reads, same_channel};
ghost use Rattle.ipdl_term.specs.Sizes.{saturated};
ghost use Rattle.ipdl_term.specs.Views.{reaction_of};

use ipdl_base::{Name, NoMemory};
use ipdl_term::{Names, React, must, reads};
use std::alloc::Global;

// Whether two channels are the same.
#[tactic(auto, using(crate::proofs::FreeChannels::free_in_forms))]
pub(crate) fn is_same(c: &Name, d: &Name) -> bool
    ensures { result ≡ same_channel c.now d.now }
{
    *c == *d
}

// Whether the reaction reads the channel.
#[tactic(auto, using(crate::proofs::FreeChannels::free_in_forms))]
pub(crate) fn is_read_in(term: &React, channel: &Name) -> bool
    ensures { result ≡ has (reads (reaction_of term.now)) channel.now }
{
    match term {
        React::Ret(_) | React::Flip(_) => false,
        React::Read(c) => is_same(c, channel),
        React::Cond(_, r, s) | React::Bind(_, r, s) => {
            is_read_in(r, channel) || is_read_in(s, channel)
        }
    }
}

// Whether the channel is read on every way through the reaction.
#[tactic(auto, using(crate::proofs::FreeChannels::free_in_forms))]
pub(crate) fn is_must_read(term: &React, channel: &Name) -> bool
    ensures { result ≡ has (must_reads (reaction_of term.now)) channel.now }
{
    match term {
        React::Ret(_) | React::Flip(_) => false,
        React::Read(c) => is_same(c, channel),
        React::Cond(_, r, s) => is_must_read(r, channel) && is_must_read(s, channel),
        React::Bind(_, r, s) => is_must_read(r, channel) || is_must_read(s, channel),
    }
}

// At how many places the reaction reads the channel. The count stands at the last `u64` where it is
// larger.
pub(crate) fn read_count(term: &React, channel: &Name) -> u64
    ensures { result ≡ saturated (read_count channel.now (reaction_of term.now)) }
{
    match term {
        React::Ret(_) | React::Flip(_) => 0,
        React::Read(c) => if is_same(channel, c) { 1 } else { 0 },
        React::Cond(_, r, s) | React::Bind(_, r, s) => {
            read_count(r, channel).saturating_add(read_count(s, channel))
        }
    }
}

// Whether the channel is read at the place.
#[tactic(auto, using(crate::proofs::PlacedReads::reads_at_places))]
pub(crate) fn is_read_at(term: &React, place: &[u32], channel: &Name) -> bool
    ensures { result ≡ is_read_at channel.now (reaction_of term.now) place.now }
{
    let Some((number, rest)) = place.split_first() else {
        return match term {
            React::Read(c) => is_same(c, channel),
            _ => false,
        };
    };
    match (term, *number) {
        (React::Cond(_, r, _), 1) => is_read_at(r, rest, channel),
        (React::Cond(_, _, s), 2) => is_read_at(s, rest, channel),
        (React::Bind(_, r, _), 0) => is_read_at(r, rest, channel),
        (React::Bind(_, _, s), 1) => is_read_at(s, rest, channel),
        _ => false,
    }
}

// Whether each name of the first set is in the second.
fn are_among(names: &Names, all: &Names) -> bool
    ensures { result ≡ is_within names.now all.now }
{
    names.list().iter().all(|name| all.has(name))
}

// Whether each channel that the first reaction reads is read on every way through the second. The
// sets of the two take memory.
#[tactic(auto, using(crate::proofs::PlacedReads::within))]
pub(crate) fn reads_anyway(alloc: Global, r: &React, s: &React) -> Result<bool, NoMemory>
    ensures { IfOk result (λ holds. holds ≡
        is_within (reads (reaction_of r.now)) (must_reads (reaction_of s.now))) }
{
    let always = must(alloc, s)?;
    let read = reads(alloc, r)?;
    Ok(are_among(&read, &always))
}
