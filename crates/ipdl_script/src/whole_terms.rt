//! The whole terms that a use adds.

ghost use Rattle.std.specs.Map.{values_of};
ghost use Rattle.std.specs.Prelude.{◌≡◌, ◌∷◌, [], All, IfOk, OnOk, Some, map};
ghost use Rattle.ipdl_script.specs.Adding.{last_among, whole_in};
ghost use Rattle.ipdl_script.specs.Steps.{KeepsLimits, extent_tests, first_refusal, type_test};
ghost use Rattle.ipdl_script.specs.TestGroups.{AnswersTest};
ghost use Rattle.ipdl_script.specs.Views.{setting_of};
ghost use Rattle.ipdl_term.specs.Channels.{AreDisjoint};
ghost use Rattle.ipdl_term.specs.Places.{context_at};
ghost use Rattle.ipdl_term.specs.Renaming.{hidden_channels};
ghost use Rattle.ipdl_term.specs.Terms.{Context};
ghost use Rattle.ipdl_term.specs.Typing.{HasInterface};
ghost use Rattle.ipdl_term.specs.Views.{protocol_of};

use crate::fault::StepFault;
use crate::setting::Setting;
use crate::stepping::{check_extent, check_type};
use ipdl_base::{List, Path};
use ipdl_embed::Renaming;
use ipdl_term::Proto;
use ipdl_uses::instance;
use std::alloc::Global;

// The whole term with the protocol at the place, in its new names, if it is not too large.
fn whole_term(
    alloc: Global,
    before: &Proto,
    path: &Path,
    renaming: &Renaming,
    term: &Proto,
) -> Result<Proto, StepFault>
    requires place { (C : Context) × (context_at (protocol_of before.now) path.now ≡ Some C) }
    requires free { AreDisjoint (values_of renaming.now) (hidden_channels (protocol_of term.now)) }
    ensures test { (C : Context) → context_at (protocol_of before.now) path.now ≡ Some C →
        AnswersTest result (first_refusal (extent_tests (whole_in C renaming.now term.now ∷ []))) }
    ensures value { (C : Context) → context_at (protocol_of before.now) path.now ≡ Some C →
        IfOk result (λ whole. protocol_of whole ≡ whole_in C renaming.now term.now) }
    ensures limits { IfOk result (λ whole. KeepsLimits (protocol_of whole)) }
{
    let whole = instance(alloc, before, path, renaming, term)?;
    check_extent(&whole)?;
    Ok(whole)
}

// The whole terms of the protocols, in order, if none is too large.
pub(crate) fn whole_terms(
    alloc: Global,
    before: &Proto,
    path: &Path,
    renaming: &Renaming,
    terms: &[&Proto],
) -> Result<List<Proto>, StepFault>
    requires place { (C : Context) × (context_at (protocol_of before.now) path.now ≡ Some C) }
    requires free { All (λ term. AreDisjoint (values_of renaming.now) (hidden_channels (protocol_of term.now))) terms.now }
    ensures test { (C : Context) → context_at (protocol_of before.now) path.now ≡ Some C →
        AnswersTest result (first_refusal (extent_tests (map (λ term. whole_in C renaming.now term.now) terms.now))) }
    ensures value { (C : Context) → context_at (protocol_of before.now) path.now ≡ Some C →
        IfOk result (λ whole. map protocol_of whole ≡ map (λ term. whole_in C renaming.now term.now) terms.now) }
    ensures limits { IfOk result (λ whole. All (λ term. KeepsLimits (protocol_of term)) whole) }
{
    let mut whole = List::empty(alloc);
    for term in terms {
        whole.push(whole_term(alloc, before, path, renaming, term)?)?;
    }
    Ok(whole)
}

// The last of the terms, or the one before them where there is none.
fn last_or<'a>(before: &'a Proto, terms: &'a [Proto]) -> &'a Proto
    ensures { protocol_of result.now ≡ last_among (protocol_of before.now) (map protocol_of terms.now) }
{
    match terms.last() {
        Some(last) => last,
        None => before,
    }
}

// Checks that it has the theorem's interface.
pub(crate) fn check_last(
    alloc: Global,
    setting: &Setting<'_>,
    before: &Proto,
    terms: &[Proto],
) -> Result<(), StepFault>
    ensures test { AnswersTest result (type_test (setting_of setting.now)
        (last_among (protocol_of before.now) (map protocol_of terms.now))) }
    ensures typed { OnOk result (HasInterface (setting_of setting.now).sig setting.now.interface.now
        (last_among (protocol_of before.now) (map protocol_of terms.now))) }
{
    check_type(alloc, setting, last_or(before, terms))
}
