//! Renamings that are made of pairs for some of an interface's channels.

ghost use Rattle.std.specs.Map.{keys_of};
ghost use Rattle.std.specs.Prelude.{◌≡◌, [], ◌∷◌, ◌++◌, IfErr, IfOk, OnOk};
ghost use Rattle.ipdl_term.specs.Typing.{port_names};
ghost use Rattle.ipdl_embed.specs.Completing.{TellsClash, TellsNoRenaming, TellsUnknown, channels_of, completed, unknown_channels};
ghost use Rattle.ipdl_embed.specs.Pairs.{named};
ghost use Rattle.ipdl_embed.specs.Tables.{renaming_in};

use crate::fault::EmbedFault;
use crate::names::{enter_ports, given_names};
use crate::renaming::Renaming;
use ipdl_base::{Name, NoMemory};
use ipdl_term::{Interface, Port};
use std::alloc::Global;
use std::collections::{HashMap, HashSet};

// Checks that each first name is one of the interface's channels.
fn check_known(
    alloc: Global,
    interface: &Interface,
    pairs: &[(Name, Name)],
) -> Result<(), EmbedFault>
    ensures known { OnOk result (unknown_channels interface.now pairs.now ≡ []) }
    ensures first { IfErr result (TellsUnknown interface.now pairs.now) }
{
    let mut names = HashSet::new(alloc);
    enter_ports(&mut names, interface.inputs.as_slice())?;
    enter_ports(&mut names, interface.outputs.as_slice())?;
    for pair in pairs {
        if !names.contains(&&pair.0) {
            return Err(EmbedFault::NoChannel {
                name: pair.0.copy(alloc)?,
            });
        }
    }
    Ok(())
}

// What is given for the channel, or else its own name.
fn name_of(alloc: Global, given: &HashMap<Name, Name>, channel: &Name) -> Result<Name, NoMemory>
    ensures { IfOk result (λ name. name ≡ renaming_in given.now channel.now) }
{
    match given.get(channel) {
        Some(name) => name.copy(alloc),
        None => channel.copy(alloc),
    }
}

// The renaming with one channel more.
fn with_channel(
    alloc: Global,
    renaming: Renaming,
    given: &HashMap<Name, Name>,
    channel: &Name,
) -> Result<Renaming, EmbedFault>
    requires { renaming ≡ named (renaming_in given.now) (keys_of renaming) }
    ensures value { IfOk result (λ more.
        more ≡ renaming ++ named (renaming_in given.now) (channel.now ∷ [])) }
    ensures clash { IfErr result (TellsClash
        (renaming ++ named (renaming_in given.now) (channel.now ∷ []))) }
{
    let name = name_of(alloc, given, channel)?;
    if let Some(first) = renaming.old_name(&name) {
        return Err(EmbedFault::NotInjective {
            first: first.copy(alloc)?,
            second: channel.copy(alloc)?,
        });
    }
    Ok(renaming.with(alloc, channel.copy(alloc)?, name)?)
}

// The renaming with the channels of these ports.
fn with_ports(
    alloc: Global,
    start: Renaming,
    given: &HashMap<Name, Name>,
    ports: &[Port],
) -> Result<Renaming, EmbedFault>
    requires { start ≡ named (renaming_in given.now) (keys_of start) }
    ensures value { IfOk result (λ more.
        more ≡ start ++ named (renaming_in given.now) (port_names ports.now)) }
    ensures clash { IfErr result (TellsClash
        (start ++ named (renaming_in given.now) (port_names ports.now))) }
{
    let mut renaming = start;
    for port in ports {
        renaming = with_channel(alloc, renaming, given, &port.name)?;
    }
    Ok(renaming)
}

/// The renaming of the interface by the pairs, of which the first one of a channel counts. A
/// channel that no pair names keeps its name. `NoChannel` tells the first pair, as written, whose
/// first name is no channel of the interface; after that `NotInjective` tells the earliest channel
/// that gets the name of an earlier one, and that one.
pub fn complete(
    alloc: Global,
    interface: &Interface,
    pairs: &[(Name, Name)],
) -> Result<Renaming, EmbedFault>
    ensures value { IfOk result (λ renaming. renaming ≡ completed interface.now pairs.now) }
    ensures channels { IfOk result (λ renaming. keys_of renaming ≡ channels_of interface.now) }
    ensures known { OnOk result (unknown_channels interface.now pairs.now ≡ []) }
    ensures fault { IfErr result (TellsNoRenaming interface.now pairs.now) }
{
    check_known(alloc, interface, pairs)?;
    let given = given_names(alloc, pairs)?;
    let renaming = with_ports(
        alloc,
        Renaming::empty(alloc),
        &given,
        interface.inputs.as_slice(),
    )?;
    with_ports(alloc, renaming, &given, interface.outputs.as_slice())
}
