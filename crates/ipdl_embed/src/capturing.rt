//! New names that are among the hidden ones of a place.

ghost use Rattle.std.specs.Map.{values_of};
ghost use Rattle.std.specs.Option.{option_copied};
ghost use Rattle.std.specs.Prelude.{◌≡◌, ◌↔◌, None};
ghost use Rattle.ipdl_term.specs.Channels.{AreDisjoint};
ghost use Rattle.ipdl_embed.specs.Captures.{first_captured_target};

use crate::renaming::Renaming;
use ipdl_base::Name;
use ipdl_term::Names;

/// The first new name, in the order of the renaming, that is among the hidden names.
pub fn first_captured_target<'a>(renaming: &'a Renaming, hidden: &Names) -> Option<&'a Name>
    ensures value { option_copied result ≡ first_captured_target renaming.now hidden.now }
    ensures none { (result ≡ None) ↔ AreDisjoint (values_of renaming.now) hidden.now }
{
    let pairs = renaming.pairs();
    for pair in pairs {
        if hidden.has(&pair.1) {
            return Some(&pair.1);
        }
    }
    None
}
