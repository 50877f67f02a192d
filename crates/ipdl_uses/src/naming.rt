//! The renaming for a use, and why there is none.

ghost use Rattle.std.specs.List.{IsDistinct};
ghost use Rattle.std.specs.Map.{values_of};
ghost use Rattle.std.specs.Option.{option_or};
ghost use Rattle.std.specs.Prelude.{◌≡◌, IfOk};
ghost use Rattle.ipdl_embed.specs.Completing.{TellsNoRenaming, completed};
ghost use Rattle.ipdl_embed.specs.Pairs.{Pairs};
ghost use Rattle.ipdl_term.specs.Channels.{same_channel};
ghost use Rattle.ipdl_term.specs.declared.interface.Interface.{Interface as InterfaceOf};
ghost use Rattle.ipdl_uses.specs.Answering.{AnswersUse};
ghost use Rattle.ipdl_uses.specs.Usable.{channel_refusal, clash_refusal};
ghost use Rattle.ipdl_uses.specs.Views.{TellsUse};

use crate::fault::UseFault;
use ipdl_base::Name;
use ipdl_embed::{EmbedFault, Renaming, complete};
use ipdl_term::Interface;
use std::alloc::Global;

// The fault of pairs that give no renaming.
fn fault_of_names(fault: EmbedFault) -> UseFault
    ensures { (i : InterfaceOf) (pairs : Pairs) → TellsNoRenaming i pairs fault →
        TellsUse result (option_or (channel_refusal i pairs) (clash_refusal (completed i pairs))) }
{
    match fault {
        EmbedFault::NoChannel { name } => UseFault::NoChannel { name },
        EmbedFault::NotInjective { first, second } => UseFault::NotInjective { first, second },
        EmbedFault::Capture { name } => UseFault::Captured { name },
        EmbedFault::Memory => UseFault::Memory,
    }
}

// A renaming gives different channels different names.
fn names_are_distinct(renaming: &Renaming)
    ensures { IsDistinct same_channel (values_of renaming.now) }
{
    renaming.pairs();
}

// The renaming of the interface by the pairs.
pub(crate) fn names_there(
    alloc: Global,
    interface: &Interface,
    pairs: &[(Name, Name)],
) -> Result<Renaming, UseFault>
    ensures value { IfOk result (λ renaming. renaming ≡ completed interface.now pairs.now) }
    ensures test { AnswersUse result (option_or (channel_refusal interface.now pairs.now)
        (clash_refusal (completed interface.now pairs.now))) }
{
    match complete(alloc, interface, pairs) {
        Ok(renaming) => {
            names_are_distinct(&renaming);
            Ok(renaming)
        }
        Err(fault) => Err(fault_of_names(fault)),
    }
}
