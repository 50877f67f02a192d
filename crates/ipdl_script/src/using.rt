//! Steps by an assumption or an earlier theorem.

ghost use Rattle.std.specs.Map.{values_of};
ghost use Rattle.std.specs.Option.{option_copied, option_or};
ghost use Rattle.std.specs.Prelude.{◌≡◌, ℕ, All, IfOk, Option, Some, length, map, option_map};
ghost use Rattle.ipdl_chain.specs.Views.{IsMarkWithin};
ghost use Rattle.ipdl_cursor.specs.Views.{part_of};
ghost use Rattle.ipdl_embed.specs.Completing.{completed};
ghost use Rattle.ipdl_embed.specs.Pairs.{Pairs};
ghost use Rattle.ipdl_script.specs.Adding.{AreLinksOf, IsAdded, IsKeptSetting, added_tests, use_in, whole_in};
ghost use Rattle.ipdl_script.specs.Answers.{TellsRefusal};
ghost use Rattle.ipdl_script.specs.Fitting.{WholeFits};
ghost use Rattle.ipdl_script.specs.Steps.{around_place, first_refusal, place_test, protocol_in, refusal_of_use, use_test, use_tests, used_at};
ghost use Rattle.ipdl_script.specs.TestGroups.{AnswersTest};
ghost use Rattle.ipdl_script.specs.Views.{setting_of};
ghost use Rattle.ipdl_term.specs.Channels.{AreDisjoint};
ghost use Rattle.ipdl_term.specs.Places.{context_at, term_at};
ghost use Rattle.ipdl_term.specs.Renaming.{hidden_channels};
ghost use Rattle.ipdl_term.specs.Steps.{direction_of, invoke};
ghost use Rattle.ipdl_term.specs.Terms.{Context, protocol_term};
ghost use Rattle.ipdl_term.specs.Typing.{scope_of};
ghost use Rattle.ipdl_term.specs.Views.{protocol_of};
ghost use Rattle.ipdl_term.specs.Within.{IsContextWithin, IsProtocolWithin};
ghost use Rattle.ipdl_uses.specs.Adding.{links_by};
ghost use Rattle.ipdl_uses.specs.Lemmas.{hidden_in_chain};
ghost use Rattle.ipdl_uses.specs.Usable.{UseRefusal};
ghost use Rattle.ipdl_uses.specs.Uses.{used};
ghost use Rattle.ipdl_uses.specs.Views.{IsKeptClaim, TellsUse, lemma_of};

use crate::adding_step::AddedTerms;
use crate::fault::{Cause, StepFault};
use crate::known_named::known_named;
use crate::setting::Setting;
use crate::whole_terms::{check_last, whole_terms};
use ipdl_base::{List, Name, NoMemory, Path};
use ipdl_cursor::{FocusFault, Found, PartRef, context, focus};
use ipdl_embed::Renaming;
use ipdl_term::{Dir, Proto};
use ipdl_uses::{Added, Known, Site, UseFault, neighbours_added, renaming_there};
use std::alloc::Global;

// ---- the place

// What stands at the place, and what is visible there.
fn found_at<'a>(
    alloc: Global,
    setting: &Setting<'_>,
    before: &'a Proto,
    path: &Path,
) -> Result<Found<'a>, StepFault>
    requires { WholeFits (setting_of setting.now) (protocol_of before.now) }
    ensures test { AnswersTest result (place_test (term_at (protocol_term (protocol_of before.now)) path.now)) }
    ensures part { IfOk result (λ found.
        term_at (protocol_term (protocol_of before.now)) path.now ≡ Some (part_of found.part)) }
    ensures scope { IfOk result (λ found. scope_of found.scope
        ≡ (around_place (setting_of setting.now) (protocol_of before.now) path.now).scope) }
{
    match focus(alloc, setting.interface, before, path) {
        Ok(found) => Ok(found),
        Err(FocusFault::NoPlace) => Err(StepFault::Refused(Cause::NoPlace)),
        Err(FocusFault::Memory) => Err(StepFault::Memory),
    }
}

// The protocol of a part, if it is one.
fn proto_in<'a>(part: PartRef<'a>) -> Option<&'a Proto>
    ensures { option_map protocol_of (option_copied result) ≡ protocol_in (Some (part_of part.entry)) }
{
    match part {
        PartRef::P(proto) => Some(proto),
        PartRef::R(_) | PartRef::E(_) => None,
    }
}

// ---- the names there

// Why a step is refused whose use is.
fn refused(fault: UseFault) -> StepFault
    ensures { (refusal : Option UseRefusal) → TellsUse fault refusal →
        TellsRefusal result (option_map refusal_of_use refusal) }
{
    match fault {
        UseFault::NoChannel { name } => StepFault::Refused(Cause::NoChannel { name }),
        UseFault::NotInjective { first, second } => {
            StepFault::Refused(Cause::NotInjective { first, second })
        }
        UseFault::Captured { name } => StepFault::Refused(Cause::Capture { name }),
        UseFault::NotSide => StepFault::Refused(Cause::NoMatch),
        UseFault::NoPort { name } => StepFault::Refused(Cause::NoPort { name }),
        UseFault::Memory => StepFault::Memory,
    }
}

// The new name of each channel of what is known, if it may be used at what was found.
fn renaming_at(
    alloc: Global,
    known: &Known<'_>,
    dir: Dir,
    found: &Found<'_>,
    pairs: &[(Name, Name)],
) -> Result<Renaming, StepFault>
    requires { (symbols : ℕ) × IsKeptClaim symbols known.now.claim }
    ensures test { AnswersTest result (use_test (Some (lemma_of known.now)) (direction_of dir)
        (Some (part_of found.now.part)) (scope_of found.now.scope) pairs.now) }
    ensures value { IfOk result (λ renaming. renaming ≡ completed known.now.interface.now pairs.now) }
{
    let part = proto_in(found.part);
    match renaming_there(alloc, known, dir, part, found.scope.as_slice(), pairs) {
        Ok(renaming) => Ok(renaming),
        Err(fault) => Err(refused(fault)),
    }
}

// ---- what is added

// The neighbours that what is known adds at the place.
fn neighbours_at<'a>(
    alloc: Global,
    before: &Proto,
    path: &Path,
    dir: Dir,
    known: &Known<'a>,
    renaming: &Renaming,
) -> Result<Added<'a>, NoMemory>
    requires kept { (symbols : ℕ) × IsKeptClaim symbols known.now.claim }
    requires named { (given : Pairs) × (renaming.now ≡ completed known.now.interface.now given) }
    ensures links { (C : Context) → context_at (protocol_of before.now) path.now ≡ Some C → IfOk result (λ added.
        links_by added.marks.items (map (λ term. whole_in C renaming.now term.now) added.terms.items)
        ≡ (used (direction_of dir) (use_in C known.now.name.now path.now renaming.now) (lemma_of known.now).chain).links) }
    ensures paired { IfOk result (λ added. length added.terms.items ≡ length added.marks.items) }
    ensures marks { (symbols : ℕ) → IsKeptClaim symbols known.now.claim → IsProtocolWithin symbols (protocol_of before.now) →
        IfOk result (λ added. All (λ mark. IsMarkWithin symbols mark) added.marks.items) }
    ensures terms { (symbols : ℕ) → IsKeptClaim symbols known.now.claim →
        IfOk result (λ added. All (λ term. IsProtocolWithin symbols (protocol_of term.now)) added.terms.items) }
    ensures free { AreDisjoint (values_of renaming.now) (hidden_in_chain (lemma_of known.now).chain) →
        IfOk result (λ added. All (λ term. AreDisjoint (values_of renaming.now) (hidden_channels (protocol_of term.now))) added.terms.items) }
{
    match context(alloc, before, path) {
        Ok(ctx) => {
            let pairs = renaming.shared_pairs(alloc)?;
            let site = Site {
                path,
                ctx: &ctx,
                renaming,
                pairs: &pairs,
            };
            neighbours_added(alloc, known, dir, &site)
        }
        Err(_) => Err(NoMemory),
    }
}

// The whole terms that are added, with their marks.
fn added_at(
    alloc: Global,
    setting: &Setting<'_>,
    before: &Proto,
    path: &Path,
    dir: Dir,
    known: &Known<'_>,
    renaming: &Renaming,
) -> Result<AddedTerms, StepFault>
    requires whole { WholeFits (setting_of setting.now) (protocol_of before.now) }
    requires kept { IsKeptClaim (length (setting_of setting.now).sig) known.now.claim }
    requires place { (C : Context) × (context_at (protocol_of before.now) path.now ≡ Some C) }
    requires named { (given : Pairs) × (renaming.now ≡ completed known.now.interface.now given) }
    requires free { AreDisjoint (values_of renaming.now) (hidden_in_chain (lemma_of known.now).chain) }
    ensures test { (C : Context) → context_at (protocol_of before.now) path.now ≡ Some C → AnswersTest result
        (first_refusal (added_tests (setting_of setting.now)
        (used (direction_of dir) (use_in C known.now.name.now path.now renaming.now) (lemma_of known.now).chain))) }
    ensures added { (C : Context) → context_at (protocol_of before.now) path.now ≡ Some C → IfOk result (λ added.
        AreLinksOf (setting_of setting.now) (protocol_of before.now)
        (used (direction_of dir) (use_in C known.now.name.now path.now renaming.now) (lemma_of known.now).chain)
        added.terms added.marks) }
{
    let Added { terms, marks } = neighbours_at(alloc, before, path, dir, known, renaming)?;
    let whole = whole_terms(alloc, before, path, renaming, terms.as_slice())?;
    check_last(alloc, setting, before, whole.as_slice())?;
    Ok(AddedTerms {
        terms: whole,
        marks: List::from_vec(marks),
    })
}

// What is known, used at the place where this was found.
fn used_at_place(
    alloc: Global,
    setting: &Setting<'_>,
    before: &Proto,
    path: &Path,
    dir: Dir,
    pairs: &[(Name, Name)],
    known: &Known<'_>,
    found: &Found<'_>,
) -> Result<AddedTerms, StepFault>
    requires whole { WholeFits (setting_of setting.now) (protocol_of before.now) }
    requires kept { IsKeptClaim (length (setting_of setting.now).sig) known.now.claim }
    requires place { term_at (protocol_term (protocol_of before.now)) path.now ≡ Some (part_of found.now.part) }
    ensures test { AnswersTest result (option_or (use_test (Some (lemma_of known.now)) (direction_of dir)
        (Some (part_of found.now.part)) (scope_of found.now.scope) pairs.now)
        (first_refusal (added_tests (setting_of setting.now) (used_at (protocol_of before.now) path.now known.now.name.now
        (direction_of dir) pairs.now (Some (lemma_of known.now)) (context_at (protocol_of before.now) path.now))))) }
    ensures added { IfOk result (λ added. AreLinksOf (setting_of setting.now) (protocol_of before.now)
        (used_at (protocol_of before.now) path.now known.now.name.now
        (direction_of dir) pairs.now (Some (lemma_of known.now)) (context_at (protocol_of before.now) path.now))
        added.terms added.marks) }
{
    let renaming = renaming_at(alloc, known, dir, found, pairs)?;
    added_at(alloc, setting, before, path, dir, known, &renaming)
}

// ---- a step

// The whole terms that the step adds by what has the name, and the mark of each.
pub(crate) fn added_by_use(
    alloc: Global,
    setting: &Setting<'_>,
    before: &Proto,
    path: &Path,
    name: &Name,
    dir: Dir,
    pairs: &[(Name, Name)],
) -> Result<AddedTerms, StepFault>
    requires whole { WholeFits (setting_of setting.now) (protocol_of before.now) }
    requires kept { IsKeptSetting setting.now }
    ensures test { AnswersTest result (first_refusal (use_tests (setting_of setting.now) (protocol_of before.now)
        path.now name.now (direction_of dir) pairs.now)) }
    ensures added { IfOk result (λ added. IsAdded (setting_of setting.now) (protocol_of before.now)
        (invoke path.now name.now (direction_of dir) pairs.now) added.terms added.marks) }
{
    let found = found_at(alloc, setting, before, path)?;
    match known_named(setting, name) {
        Some(known) => used_at_place(alloc, setting, before, path, dir, pairs, &known, &found),
        None => Err(StepFault::Refused(Cause::NoMatch)),
    }
}
