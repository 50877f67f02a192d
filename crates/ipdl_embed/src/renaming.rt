//! Renamings: the new name of each channel of an interface.

ghost use Rattle.std.specs.List.{IsDistinct};
ghost use Rattle.std.specs.Map.{keys_of, values_of};
ghost use Rattle.std.specs.Option.{option_copied};
ghost use Rattle.std.specs.Prelude.{◌≡◌, [], ◌∷◌, ◌++◌, false, IfOk};
ghost use Rattle.ipdl_term.specs.Channels.{has, same_channel};
ghost use Rattle.ipdl_embed.specs.Pairs.{new_name, old_name};

use crate::shared::SharedPairs;
use ipdl_base::{Name, NoMemory};
use std::alloc::Global;
use std::collections::HashMap;
use std::marker::Model;

/// New names of the channels of an interface. Contracts see them as the list of the pairs of a
/// channel and its new name, in the order of the interface, the inputs before the outputs. No
/// channel comes twice, and no new name. A look-up takes about the same time however many there
/// are.
#[derive(Drop)]
pub struct Renaming {
    pairs: Vec<(Name, Name)>,
    // The new name of each channel.
    targets: HashMap<Name, Name>,
    // The channel of each new name.
    sources: HashMap<Name, Name>,
}

impl Model for Renaming {
    ghost use Rattle.std.specs.Prelude.{List, ℕ};
    ghost use Rattle.ipdl_embed.specs.Tables.{IsIndexed, found_in};

    ghost Value = { List (List ℕ × List ℕ) };

    ghost view = { λ r. r.pairs.items };

    ghost invariant = { λ r. IsIndexed r.pairs.items (found_in r.targets) (found_in r.sources) };
}

// The pair, whose names share their texts.
fn copied_pair(alloc: Global, pair: &(Name, Name)) -> Result<(Name, Name), NoMemory>
    ensures { IfOk result (λ copied. copied ≡ pair.now) }
{
    Ok((pair.0.copy(alloc)?, pair.1.copy(alloc)?))
}

impl Renaming {
    // No channel.
    pub(crate) fn empty(alloc: Global) -> Renaming
        ensures { result ≡ [] }
    {
        Renaming {
            pairs: Vec::new(alloc),
            targets: HashMap::new(alloc),
            sources: HashMap::new(alloc),
        }
    }

    /// The pairs of a channel and its new name. It takes no memory.
    pub fn pairs(&self) -> &[(Name, Name)]
        ensures value { result.now ≡ self.now }
        ensures each_once { IsDistinct same_channel (keys_of self.now) }
        ensures distinct { IsDistinct same_channel (values_of self.now) }
    {
        self.pairs.as_slice()
    }

    /// The pairs, in memory that their holders share.
    pub fn shared_pairs(&self, alloc: Global) -> Result<SharedPairs, NoMemory>
        ensures { IfOk result (λ pairs. pairs ≡ self.now) }
    {
        let pairs = self.pairs();
        let mut copied = Vec::new(alloc);
        for pair in pairs {
            copied.push(copied_pair(alloc, pair)?)?;
        }
        SharedPairs::from_vec(copied)
    }

    // The new name of the channel.
    pub(crate) fn new_name(&self, channel: &Name) -> Option<&Name>
        ensures { option_copied result ≡ new_name self.now channel.now }
    {
        self.targets.get(channel)
    }

    // The channel of the new name.
    pub(crate) fn old_name(&self, name: &Name) -> Option<&Name>
        ensures { option_copied result ≡ old_name self.now name.now }
    {
        self.sources.get(name)
    }

    // Whether it is a new name.
    pub(crate) fn is_new_name(&self, name: &Name) -> bool
        ensures { result ≡ has (values_of self.now) name.now }
    {
        self.sources.contains_key(name)
    }

    // The renaming with a channel more, whose new name no other channel has.
    pub(crate) fn with(self, alloc: Global, channel: Name, name: Name) -> Result<Renaming, NoMemory>
        requires other { has (keys_of self) channel ≡ false }
        requires free { has (values_of self) name ≡ false }
        ensures { IfOk result (λ more. more ≡ self ++ (channel, name) ∷ []) }
    {
        let Renaming {
            mut pairs,
            mut targets,
            mut sources,
        } = self;
        targets.insert(channel.copy(alloc)?, name.copy(alloc)?)?;
        sources.insert(name.copy(alloc)?, channel.copy(alloc)?)?;
        pairs.push((channel, name))?;
        Ok(Renaming {
            pairs,
            targets,
            sources,
        })
    }
}
