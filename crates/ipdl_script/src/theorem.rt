//! The check of a theorem: its chain, or what is wrong with its scripts.

ghost use Rattle.std.specs.Prelude.{◌≡◌, ◌+◌, ◌≤◌, ◌∷◌, [], ◌++◌, All, Some, IfOk, OnErr, OnOk, length, map, option_map};
ghost use Rattle.ipdl_base.specs.Limits.{limit_number};
ghost use Rattle.ipdl_base.specs.declared.limit.Limit.TheVariants.{Chain as ChainLimit};
ghost use Rattle.ipdl_chain.specs.Chains.{neighbour_count, turned_links};
ghost use Rattle.ipdl_chain.specs.Views.{chain_of};
ghost use Rattle.ipdl_forms.specs.Lookups.{protocol_named};
ghost use Rattle.ipdl_forms.specs.declared.document.ProtocolItem.{ProtocolItem as Found};
ghost use Rattle.ipdl_script.specs.Adding.{HasKeptBodies, IsKeptSetting};
ghost use Rattle.ipdl_script.specs.Answers.{AnswersTheorem};
ghost use Rattle.ipdl_script.specs.EndPlaces.{differing_place};
ghost use Rattle.ipdl_script.specs.Fitting.{StepFits, WholeFits};
ghost use Rattle.ipdl_script.specs.Ready.{HasFitSides, IsReady, neighbours_in, setting_at, theorem_between};
ghost use Rattle.ipdl_script.specs.Scripts.{chain_of_scripts, first_wrong, links_of_script, wrong_ends};
ghost use Rattle.ipdl_script.specs.TestGroups.{AnswersScripts, wrong_on_right};
ghost use Rattle.ipdl_script.specs.Trails.{IsTrail, IsTrailWithin, trail_end, trail_first, trail_links};
ghost use Rattle.ipdl_script.specs.Views.{setting_of};
ghost use Rattle.ipdl_term.specs.Channels.{SameSet};
ghost use Rattle.ipdl_term.specs.Steps.{step_of};
ghost use Rattle.ipdl_term.specs.Views.{protocol_of};
ghost use Rattle.ipdl_uses.specs.Lemmas.{hidden_in_terms};
ghost use Rattle.ipdl_uses.specs.Views.{IsKept};

use crate::comparing::differing_at;
use crate::fault::{ScriptFault, Side, Wrong};
use crate::following::followed;
use crate::setting::Setting;
use crate::trail::{Trail, turned_back};
use ipdl_base::{List, NoMemory, Path};
use ipdl_chain::Chain;
use ipdl_forms::{Document, TheoremItem};
use ipdl_term::{Interface, Proto, Step};
use ipdl_uses::hidden_in;
use std::alloc::Global;

/// A document, and the chains of its theorems so far.
#[derive(Drop)]
pub struct Book<'a> {
    pub document: &'a Document,
    pub chains: List<Chain>,
}

impl<'a> Book<'a> {
    /// The book of a document in which no theorem was checked.
    pub fn new(alloc: Global, document: &'a Document) -> Book<'a>
        ensures document { result.document.now ≡ document.now }
        ensures empty { result.chains ≡ [] }
    {
        Book {
            document,
            chains: List::empty(alloc),
        }
    }

    /// Adds the chain of the next theorem. Where memory runs out it is dropped.
    pub fn add(&mut self, chain: Chain) -> Result<(), NoMemory>
        ensures ok { OnOk result (self.new.chains ≡ self.old.chains ++ chain ∷ []) }
        ensures err { OnErr result (self.new.chains ≡ self.old.chains) }
        ensures document { self.new.document.now ≡ self.old.document.now }
    {
        self.chains.push(chain)
    }
}

// The neighbours of the chains together.
fn neighbours_in(chains: &[Chain]) -> u64
    requires { neighbours_in chains.now ≤ limit_number ChainLimit }
    ensures { result ≡ neighbours_in chains.now }
{
    let mut count = 0;
    for chain in chains {
        count += chain.neighbours();
    }
    count
}

// What the steps of a theorem are checked against whose left protocol has this interface.
fn setting_with<'b>(book: &'b Book<'_>, interface: &'b Interface) -> Setting<'b>
    ensures value { setting_of result ≡ setting_at book.now.document.now book.now.chains interface.now }
    ensures kept { HasKeptBodies book.now.document.now →
        All (IsKept (length book.now.document.now.sig)) book.now.chains → IsKeptSetting result }
{
    Setting {
        sig: &book.document.sig,
        document: book.document,
        chains: book.chains.as_slice(),
        interface,
    }
}

// Checks that both sides have come to one term.
fn check_ends(alloc: Global, left: &Proto, right: &Proto) -> Result<(), ScriptFault>
    ensures { AnswersScripts result
        (option_map wrong_ends (differing_place (protocol_of left.now) (protocol_of right.now))) }
{
    match differing_at(alloc, left, right)? {
        Some(place) => Err(ScriptFault::Wrong(Wrong::Ends {
            path: Path::from_parts(alloc, place.as_slice())?,
        })),
        None => Ok(()),
    }
}

// The left trail, and then the right one back to the right protocol. A side without steps needs no
// trail: it ends at its protocol.
fn trail_across(
    alloc: Global,
    setting: &Setting<'_>,
    neighbours: u64,
    lefts: Trail,
    right: &Proto,
    steps: &[Step],
) -> Result<Trail, ScriptFault>
    requires trail { IsTrail (setting_of setting.now) lefts }
    requires whole { WholeFits (setting_of setting.now) (protocol_of right.now) }
    requires steps { All (λ step. StepFits (step_of step)) steps.now }
    requires kept { IsKeptSetting setting.now }
    requires short { neighbours ≤ limit_number ChainLimit }
    ensures test { AnswersScripts result (wrong_on_right (setting_of setting.now) neighbours
        (trail_end lefts) (protocol_of right.now) (map step_of steps.now)) }
    ensures first { IfOk result (λ trail. trail_first trail ≡ trail_first lefts) }
    ensures links { IfOk result (λ trail. trail_links trail ≡ trail_links lefts ++ turned_links (protocol_of right.now)
        (links_of_script (setting_of setting.now) (protocol_of right.now) (map step_of steps.now))) }
    ensures within { IfOk result (λ trail. IsTrailWithin (length (setting_of setting.now).sig) trail) }
    ensures short { OnOk result (neighbours + neighbour_count (links_of_script (setting_of setting.now)
        (protocol_of right.now) (map step_of steps.now)) ≤ limit_number ChainLimit) }
{
    if steps.is_empty() {
        check_ends(alloc, lefts.end(), right)?;
        return Ok(lefts);
    }
    let rights = followed(alloc, setting, neighbours, Side::Right, right, steps)?;
    check_ends(alloc, lefts.end(), rights.end())?;
    Ok(turned_back(lefts, rights)?)
}

// The trail from the left protocol to the right one.
fn trail_between(
    alloc: Global,
    setting: &Setting<'_>,
    neighbours: u64,
    theorem: &TheoremItem,
    left: &Proto,
    right: &Proto,
) -> Result<Trail, ScriptFault>
    requires sides { HasFitSides (setting_of setting.now) theorem.now (protocol_of left.now) (protocol_of right.now) }
    requires kept { IsKeptSetting setting.now }
    requires short { neighbours ≤ limit_number ChainLimit }
    ensures test { AnswersScripts result (first_wrong (setting_of setting.now) neighbours
        (theorem_between theorem.now (protocol_of left.now) (protocol_of right.now))) }
    ensures first { IfOk result (λ trail. trail_first trail ≡ protocol_of left.now) }
    ensures links { IfOk result (λ trail. trail_links trail ≡ (chain_of_scripts (setting_of setting.now)
        (theorem_between theorem.now (protocol_of left.now) (protocol_of right.now))).links) }
    ensures within { IfOk result (λ trail. IsTrailWithin (length (setting_of setting.now).sig) trail) }
    ensures short { IfOk result (λ trail. neighbours + neighbour_count (trail_links trail) ≤ limit_number ChainLimit) }
{
    let steps = theorem.left_steps.as_slice();
    let lefts = followed(alloc, setting, neighbours, Side::Left, left, steps)?;
    let so_far = neighbours + lefts.marks.as_slice().len() as u64;
    let steps = theorem.right_steps.as_slice();
    trail_across(alloc, setting, so_far, lefts, right, steps)
}

// The trail as the chain of the theorem.
fn named(alloc: Global, theorem: &TheoremItem, trail: Trail) -> Result<Chain, NoMemory>
    ensures name { IfOk result (λ chain. chain.name ≡ theorem.now.name) }
    ensures left { IfOk result (λ chain. chain.left ≡ theorem.now.left) }
    ensures right { IfOk result (λ chain. chain.right ≡ theorem.now.right) }
    ensures terms { IfOk result (λ chain. chain.terms ≡ trail.terms) }
    ensures marks { IfOk result (λ chain. chain.marks ≡ trail.marks) }
    ensures hidden { IfOk result (λ chain. SameSet chain.hidden (hidden_in_terms (map protocol_of chain.terms))) }
{
    let hidden = hidden_in(alloc, trail.terms.as_slice())?;
    let name = theorem.name.copy(alloc)?;
    let left = theorem.left.copy(alloc)?;
    let right = theorem.right.copy(alloc)?;
    let Trail { terms, marks } = trail;
    Ok(Chain {
        name,
        left,
        right,
        terms,
        marks,
        hidden,
    })
}

/// The chain of the theorem's scripts: the left terms in order, and then the right ones from the
/// last but one back to the right protocol. Where a step is refused, or the two ends differ, the
/// first such thing is told. The book has the chains of the earlier theorems; of all neighbours
/// together there may be 8,192.
pub fn check_theorem(
    alloc: Global,
    book: &Book<'_>,
    theorem: &TheoremItem,
) -> Result<Chain, ScriptFault>
    requires { IsReady book.now theorem.now }
    ensures scripts { (left right : Found) →
        protocol_named book.now.document.now.items theorem.now.left ≡ Some left →
        protocol_named book.now.document.now.items theorem.now.right ≡ Some right →
        AnswersTheorem result (setting_at book.now.document.now book.now.chains left.interface) (neighbours_in book.now.chains)
        (theorem_between theorem.now (protocol_of left.body) (protocol_of right.body)) }
    ensures name { IfOk result (λ chain. chain.name ≡ theorem.now.name) }
    ensures left { IfOk result (λ chain. chain.left ≡ theorem.now.left) }
    ensures right { IfOk result (λ chain. chain.right ≡ theorem.now.right) }
    ensures kept { IfOk result (λ chain. IsKept (length book.now.document.now.sig) chain) }
    ensures short { IfOk result (λ chain. neighbours_in book.now.chains
        + neighbour_count (chain_of chain).links ≤ limit_number ChainLimit) }
{
    let Some(left) = book.document.protocol(&theorem.left) else {
        unreachable!();
    };
    let Some(right) = book.document.protocol(&theorem.right) else {
        unreachable!();
    };
    let setting = setting_with(book, &left.interface);
    let neighbours = neighbours_in(book.chains.as_slice());
    let trail = trail_between(
        alloc,
        &setting,
        neighbours,
        theorem,
        &left.body,
        &right.body,
    )?;
    Ok(named(alloc, theorem, trail)?)
}
