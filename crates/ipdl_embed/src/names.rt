//! Sets of names that stand elsewhere, and what pairs give.

ghost use Rattle.std.specs.Prelude.{◌≡◌, ◌&&◌, ◌||◌, [], ◌∷◌, false, if◌then◌else◌, is_some, not, IfOk, OnOk};
ghost use Rattle.ipdl_term.specs.Channels.{has, same_channel};
ghost use Rattle.ipdl_term.specs.Terms.{Channel};
ghost use Rattle.ipdl_term.specs.Typing.{port_names};
ghost use Rattle.ipdl_embed.specs.Pairs.{new_name};
ghost use Rattle.ipdl_embed.specs.Tables.{found_in, holds};

use ipdl_base::{Name, NoMemory};
use ipdl_term::Port;
use std::alloc::Global;
use std::collections::{HashMap, HashSet};

// Adds a name. The answer is whether it was not there.
#[inline(never)]
pub(crate) fn enter<'a>(names: &mut HashSet<&'a Name>, name: &'a Name) -> Result<bool, NoMemory>
    ensures added { IfOk result (λ added. added ≡ not (holds names.old name.now)) }
    ensures names { OnOk result ((c : Channel) →
        holds names.new c ≡ (same_channel name.now c || holds names.old c)) }
{
    Ok(names.insert(name)?)
}

// Takes a name out that was added.
#[inline(never)]
pub(crate) fn leave<'a>(names: &mut HashSet<&'a Name>, name: &'a Name, added: bool)
    ensures { (c : Channel) → holds names.new c
        ≡ (if added && same_channel name.now c then false else holds names.old c) }
{
    if !added {
        return;
    }
    names.remove(&name);
}

// Adds the names of ports.
pub(crate) fn enter_ports<'a>(
    names: &mut HashSet<&'a Name>,
    ports: &'a [Port],
) -> Result<(), NoMemory>
    ensures { OnOk result ((c : Channel) →
        holds names.new c ≡ (has (port_names ports.now) c || holds names.old c)) }
{
    for port in ports {
        enter(names, &port.name)?;
    }
    Ok(())
}

// Gives the second name of the pair to the first one, unless that has a name.
fn give(alloc: Global, given: &mut HashMap<Name, Name>, pair: &(Name, Name)) -> Result<(), NoMemory>
    ensures { OnOk result ((c : Channel) → found_in given.new c
        ≡ (if is_some (found_in given.old c) then found_in given.old c
        else new_name (pair.now ∷ []) c)) }
{
    if given.contains_key(&pair.0) {
        return Ok(());
    }
    given.insert(pair.0.copy(alloc)?, pair.1.copy(alloc)?)?;
    Ok(())
}

// What the pairs give: of each first name, the second one of its first pair.
pub(crate) fn given_names(
    alloc: Global,
    pairs: &[(Name, Name)],
) -> Result<HashMap<Name, Name>, NoMemory>
    ensures { IfOk result (λ given. (c : Channel) → found_in given c ≡ new_name pairs.now c) }
{
    let mut given = HashMap::new(alloc);
    for pair in pairs {
        give(alloc, &mut given, pair)?;
    }
    Ok(given)
}
