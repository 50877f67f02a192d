//! Protocols of an interface where they are used.

ghost use Rattle.std.specs.Map.{values_of};
ghost use Rattle.std.specs.Prelude.{◌≡◌, IfOk, Some};
ghost use Rattle.ipdl_embed.specs.declared.fault.EmbedFault.TheVariants.{Memory};
ghost use Rattle.ipdl_term.specs.Channels.{AreDisjoint};
ghost use Rattle.ipdl_term.specs.Contexts.{plugged};
ghost use Rattle.ipdl_term.specs.Places.{context_at};
ghost use Rattle.ipdl_term.specs.Renaming.{hidden_channels, renamed, renaming_of};
ghost use Rattle.ipdl_term.specs.Terms.{Context};
ghost use Rattle.ipdl_term.specs.Views.{protocol_of};

use ipdl_base::{NoMemory, Path};
use ipdl_cursor::replaced;
use ipdl_embed::{EmbedFault, Renaming, embed};
use ipdl_term::{Part, Proto, boxed};
use std::alloc::Global;

fn no_memory(fault: EmbedFault) -> NoMemory
    requires { fault ≡ Memory }
{
    match fault {
        EmbedFault::Memory => NoMemory,
        _ => unreachable!(),
    }
}

// The protocol in its new names, of which none is hidden in it.
pub(crate) fn in_new_names(
    alloc: Global,
    renaming: &Renaming,
    term: &Proto,
) -> Result<Proto, NoMemory>
    requires { AreDisjoint (values_of renaming.now) (hidden_channels (protocol_of term.now)) }
    ensures { IfOk result (λ made. protocol_of made ≡ renamed (renaming_of renaming.now) (protocol_of term.now)) }
{
    match embed(alloc, renaming, term) {
        Ok(made) => Ok(made),
        Err(fault) => Err(no_memory(fault)),
    }
}

/// The whole term with the protocol at the place, in its new names. A protocol stands there, and no
/// new name is hidden in the one that comes.
pub fn instance(
    alloc: Global,
    before: &Proto,
    path: &Path,
    renaming: &Renaming,
    term: &Proto,
) -> Result<Proto, NoMemory>
    requires place { (C : Context) × (context_at (protocol_of before.now) path.now ≡ Some C) }
    requires free { AreDisjoint (values_of renaming.now) (hidden_channels (protocol_of term.now)) }
    ensures { (C : Context) → context_at (protocol_of before.now) path.now ≡ Some C →
        IfOk result (λ whole. protocol_of whole ≡ plugged C (renamed (renaming_of renaming.now) (protocol_of term.now))) }
{
    let made = in_new_names(alloc, renaming, term)?;
    let part = boxed(alloc, Ok(Part::P(made)))?;
    replaced(alloc, before, path, part)
}
