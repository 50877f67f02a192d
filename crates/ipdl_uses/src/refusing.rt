//! Whether something may be used at a place.

ghost use Rattle.std.specs.Map.{values_of};
ghost use Rattle.std.specs.Option.{option_copied};
ghost use Rattle.std.specs.Prelude.{◌≡◌, ◌<◌, None, Some, ℕ, IfErr, IfOk, OnOk, length, option_map, slice_get};
ghost use Rattle.ipdl_embed.specs.Captures.{first_captured_target};
ghost use Rattle.ipdl_embed.specs.Completing.{completed};
ghost use Rattle.ipdl_embed.specs.Pairs.{Pairs};
ghost use Rattle.ipdl_term.specs.Channels.{AreDisjoint};
ghost use Rattle.ipdl_term.specs.Renaming.{renamed, renaming_of};
ghost use Rattle.ipdl_term.specs.Steps.{direction_of};
ghost use Rattle.ipdl_term.specs.Typing.{scope_of};
ghost use Rattle.ipdl_term.specs.Views.{protocol_of};
ghost use Rattle.ipdl_uses.specs.Answering.{AnswersUse};
ghost use Rattle.ipdl_uses.specs.Lemmas.{hidden_in_chain};
ghost use Rattle.ipdl_uses.specs.Usable.{capture_refusal, captured, port_refusal, side_refusal, use_refusal};
ghost use Rattle.ipdl_uses.specs.Uses.{from_side};
ghost use Rattle.ipdl_uses.specs.Views.{IsKeptClaim, TellsUse, lemma_of};

use crate::fault::UseFault;
use crate::hidden::hidden_in_either;
use crate::instances::in_new_names;
use crate::known::{Claim, Known};
use crate::naming::names_there;
use crate::sides::side_of;
use ipdl_base::{Name, NoMemory};
use ipdl_embed::{Renaming, Visible, first_captured_target, fits};
use ipdl_term::{Dir, Interface, Names, Port, Proto};
use std::alloc::Global;

// Checks that no new name is one of the hidden ones.
fn check_free(alloc: Global, renaming: &Renaming, hidden: &Names) -> Result<(), UseFault>
    ensures { AnswersUse result (option_map captured (first_captured_target renaming.now hidden.now)) }
{
    match first_captured_target(renaming, hidden) {
        Some(name) => Err(UseFault::Captured {
            name: name.copy(alloc)?,
        }),
        None => Ok(()),
    }
}

// Checks that no new name is hidden in a term of the chain.
fn check_captures(alloc: Global, known: &Known<'_>, renaming: &Renaming) -> Result<(), UseFault>
    requires { (symbols : ℕ) × IsKeptClaim symbols known.now.claim }
    ensures { AnswersUse result (capture_refusal (lemma_of known.now) renaming.now) }
{
    match known.claim {
        Claim::Assumption { left, right } => {
            let hidden = hidden_in_either(alloc, left, right)?;
            check_free(alloc, renaming, &hidden)
        }
        Claim::Theorem(chain) => check_free(alloc, renaming, &chain.hidden),
    }
}

// Checks that the protocol is the side from which what is known is used, in its new names.
fn check_side(
    alloc: Global,
    known: &Known<'_>,
    dir: Dir,
    part: &Proto,
    renaming: &Renaming,
) -> Result<(), UseFault>
    requires kept { (symbols : ℕ) × IsKeptClaim symbols known.now.claim }
    requires free { AreDisjoint (values_of renaming.now) (hidden_in_chain (lemma_of known.now).chain) }
    ensures { AnswersUse result (side_refusal (Some (protocol_of part.now))
        (renamed (renaming_of renaming.now) (from_side (direction_of dir) (lemma_of known.now).chain))) }
{
    let side = in_new_names(alloc, renaming, side_of(known, dir))?;
    if *part == side {
        Ok(())
    } else {
        Err(UseFault::NotSide)
    }
}

// The same where there may be no protocol.
fn check_part(
    alloc: Global,
    known: &Known<'_>,
    dir: Dir,
    part: Option<&Proto>,
    renaming: &Renaming,
) -> Result<(), UseFault>
    requires kept { (symbols : ℕ) × IsKeptClaim symbols known.now.claim }
    requires free { AreDisjoint (values_of renaming.now) (hidden_in_chain (lemma_of known.now).chain) }
    ensures { AnswersUse result (side_refusal (option_map protocol_of (option_copied part.entry))
        (renamed (renaming_of renaming.now) (from_side (direction_of dir) (lemma_of known.now).chain))) }
{
    match part {
        Some(part) => check_side(alloc, known, dir, part, renaming),
        None => Err(UseFault::NotSide),
    }
}

// A copy of the new name of this number.
fn new_name_at(alloc: Global, renaming: &Renaming, place: u64) -> Result<Name, NoMemory>
    requires { place < length renaming.now }
    ensures { IfOk result (λ name. slice_get (values_of renaming.now) place ≡ Some name) }
{
    let pairs = renaming.pairs();
    pairs[place as usize].1.copy(alloc)
}

// Checks that the new names are visible with the widths of the interface's channels.
fn check_ports(
    alloc: Global,
    interface: &Interface,
    scope: &[Port],
    renaming: &Renaming,
) -> Result<(), UseFault>
    requires { (given : Pairs) × (renaming.now ≡ completed interface.now given) }
    ensures { AnswersUse result (port_refusal interface.now (scope_of scope.now) renaming.now) }
{
    let visible = Visible::of(alloc, scope)?;
    match fits(renaming, interface, &visible) {
        Ok(()) => Ok(()),
        Err(fault) => Err(UseFault::NoPort {
            name: new_name_at(alloc, renaming, fault.place)?,
        }),
    }
}

/// The renaming under which what is known may be used, from its left side to its right one or back,
/// where this protocol stands and these ports are visible, of ports with one name the last one. Its
/// tests are made in this order, and the first that fails is told: the channels of the pairs,
/// different new names, that none of them is hidden in a term of the chain, the protocol, and the
/// widths under the new names.
pub fn renaming_there(
    alloc: Global,
    known: &Known<'_>,
    dir: Dir,
    part: Option<&Proto>,
    scope: &[Port],
    pairs: &[(Name, Name)],
) -> Result<Renaming, UseFault>
    requires { (symbols : ℕ) × IsKeptClaim symbols known.now.claim }
    ensures value { IfOk result (λ renaming. renaming ≡ completed known.now.interface.now pairs.now) }
    ensures usable { OnOk result (use_refusal (lemma_of known.now) (direction_of dir)
        (option_map protocol_of (option_copied part.entry)) (scope_of scope.now) pairs.now ≡ None) }
    ensures fault { IfErr result (λ fault. TellsUse fault (use_refusal (lemma_of known.now) (direction_of dir)
        (option_map protocol_of (option_copied part.entry)) (scope_of scope.now) pairs.now)) }
{
    let renaming = names_there(alloc, known.interface, pairs)?;
    check_captures(alloc, known, &renaming)?;
    check_part(alloc, known, dir, part, &renaming)?;
    check_ports(alloc, known.interface, scope, &renaming)?;
    Ok(renaming)
}
