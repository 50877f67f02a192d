//! The channels that are hidden in the terms of a chain.

ghost use Rattle.std.specs.Prelude.{◌≡◌, ◌||◌, [], ◌∷◌, IfOk, OnOk, map};
ghost use Rattle.ipdl_term.specs.Renaming.{hidden_channels};
ghost use Rattle.ipdl_term.specs.Channels.{SameSet, has};
ghost use Rattle.ipdl_term.specs.Terms.{Channel};
ghost use Rattle.ipdl_term.specs.Views.{protocol_of};
ghost use Rattle.ipdl_uses.specs.Lemmas.{hidden_in_terms};

use ipdl_base::{Name, NoMemory};
use ipdl_term::{Names, Proto};
use std::alloc::Global;

// Adds a copy of the name, unless it is there.
fn add_name(alloc: Global, names: &mut Names, name: &Name) -> Result<(), NoMemory>
    ensures { OnOk result ((c : Channel) → has names.new c ≡ (has (name.now ∷ []) c || has names.old c)) }
{
    if names.has(name) {
        return Ok(());
    }
    names.add(name.copy(alloc)?)
}

// Adds the channels that are hidden in the protocol.
fn add_hidden(alloc: Global, names: &mut Names, proto: &Proto) -> Result<(), NoMemory>
    ensures { OnOk result ((c : Channel) →
        has names.new c ≡ (has (hidden_channels (protocol_of proto.now)) c || has names.old c)) }
{
    match proto {
        Proto::Nil | Proto::Out(_, _) => Ok(()),
        Proto::Par(p, q) => {
            add_hidden(alloc, &mut *names, p)?;
            add_hidden(alloc, names, q)
        }
        Proto::Hide(channel, _, p) => {
            add_name(alloc, &mut *names, channel)?;
            add_hidden(alloc, names, p)
        }
    }
}

// The channels that are hidden in one of the protocols.
pub(crate) fn hidden_in_either(
    alloc: Global,
    first: &Proto,
    second: &Proto,
) -> Result<Names, NoMemory>
    ensures { IfOk result (λ names. SameSet names
        (hidden_in_terms (protocol_of first.now ∷ protocol_of second.now ∷ []))) }
{
    let mut names = Names::empty(alloc);
    add_hidden(alloc, &mut names, first)?;
    add_hidden(alloc, &mut names, second)?;
    Ok(names)
}

/// The channels that are hidden in some of the terms, by whatever `new`.
pub fn hidden_in(alloc: Global, terms: &[Proto]) -> Result<Names, NoMemory>
    ensures { IfOk result (λ names. SameSet names (hidden_in_terms (map protocol_of terms.now))) }
{
    let mut names = Names::empty(alloc);
    for term in terms {
        add_hidden(alloc, &mut names, term)?;
    }
    Ok(names)
}
