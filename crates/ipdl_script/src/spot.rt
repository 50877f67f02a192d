//! The place of a step in the current term.

ghost use Rattle.std.specs.Prelude.{◌≡◌, ◌<◌, Some, IfOk, length};
ghost use Rattle.ipdl_cursor.specs.Views.{part_of};
ghost use Rattle.ipdl_script.specs.Fitting.{WholeFits};
ghost use Rattle.ipdl_script.specs.Steps.{around_place, place_test};
ghost use Rattle.ipdl_script.specs.TestGroups.{AnswersTest};
ghost use Rattle.ipdl_script.specs.Views.{setting_of};
ghost use Rattle.ipdl_term.specs.Places.{term_at};
ghost use Rattle.ipdl_term.specs.Sizes.{most_nodes};
ghost use Rattle.ipdl_term.specs.Terms.{protocol_term};
ghost use Rattle.ipdl_term.specs.Views.{protocol_of};

use crate::fault::{Cause, StepFault};
use crate::setting::Setting;
use ipdl_base::Path;
use ipdl_cursor::{PartRef, locate};
use ipdl_term::Proto;

// A place in the current term.
#[derive(Clone, Copy)]
pub(crate) struct Spot<'a> {
    // The part that stands there.
    pub part: PartRef<'a>,
    // How many binders are around it.
    pub depth: u32,
}

// The place that the path leads to. The setting is that of the claims alone.
pub(crate) fn find<'a>(
    _setting: &Setting<'_>,
    before: &'a Proto,
    path: &Path,
) -> Result<Spot<'a>, StepFault>
    requires { WholeFits (setting_of _setting.now) (protocol_of before.now) }
    ensures test { AnswersTest result (place_test (term_at (protocol_term (protocol_of before.now)) path.now)) }
    ensures part { IfOk result (λ spot.
        term_at (protocol_term (protocol_of before.now)) path.now ≡ Some (part_of spot.part)) }
    ensures depth { IfOk result (λ spot.
        spot.depth ≡ length (around_place (setting_of _setting.now) (protocol_of before.now) path.now).widths) }
    ensures few { IfOk result (λ spot. spot.depth < most_nodes) }
{
    match locate(before, path) {
        Some(found) => Ok(Spot {
            part: found.part,
            depth: found.depth as u32,
        }),
        None => Err(StepFault::Refused(Cause::NoPlace)),
    }
}
