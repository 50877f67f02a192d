//! Trails: the whole terms that one side has come through.

ghost use Rattle.std.specs.Prelude.{◌≡◌, ℕ, [], ◌∷◌, ◌++◌, All, IfOk, OnOk, suc, length};
ghost use Rattle.ipdl_chain.specs.Chains.{turned_links};
ghost use Rattle.ipdl_chain.specs.Views.{IsMarkWithin, links_of, mark_of};
ghost use Rattle.ipdl_script.specs.Fitting.{WholeFits};
ghost use Rattle.ipdl_script.specs.Steps.{Setting};
ghost use Rattle.ipdl_script.specs.Trails.{IsTrail, IsTrailWithin, back_links, trail_end, trail_first, trail_links};
ghost use Rattle.ipdl_term.specs.Views.{protocol_of};
ghost use Rattle.ipdl_term.specs.Within.{IsProtocolWithin};

use crate::adding_step::AddedTerms;
use ipdl_base::{List, NoMemory};
use ipdl_chain::Mark;
use ipdl_term::{Proto, copy_proto};
use std::alloc::Global;

// The whole terms of one side in order, from its protocol on, and the marks between them, one fewer.
#[derive(Drop)]
pub(crate) struct Trail {
    pub terms: List<Proto>,
    pub marks: List<Mark>,
}

// The trail of a side of which no step was taken.
pub(crate) fn start(alloc: Global, from: &Proto) -> Result<Trail, NoMemory>
    ensures first { IfOk result (λ trail. trail_first trail ≡ protocol_of from.now) }
    ensures links { IfOk result (λ trail. trail_links trail ≡ []) }
    ensures trail { (x : Setting) → WholeFits x (protocol_of from.now) → IfOk result (λ trail. IsTrail x trail) }
{
    let mut terms = List::empty(alloc);
    terms.push(copy_proto(alloc, from)?)?;
    Ok(Trail {
        terms,
        marks: List::empty(alloc),
    })
}

impl Trail {
    // The term that it has come to.
    pub(crate) fn end(&self) -> &Proto
        requires { length self.now.terms ≡ suc (length self.now.marks) }
        ensures { protocol_of result.now ≡ trail_end self.now }
    {
        &self.terms.as_slice()[self.marks.as_slice().len()]
    }

    // Goes on to the term, by the mark.
    pub(crate) fn push(&mut self, term: Proto, mark: Mark) -> Result<(), NoMemory>
        requires { length self.old.terms ≡ suc (length self.old.marks) }
        ensures paired { OnOk result (length self.new.terms ≡ suc (length self.new.marks)) }
        ensures first { OnOk result (trail_first self.new ≡ trail_first self.old) }
        ensures links { OnOk result (trail_links self.new
            ≡ trail_links self.old ++ record { mark = mark_of mark; term = protocol_of term } ∷ []) }
        ensures within { (symbols : ℕ) → IsTrailWithin symbols self.old → IsProtocolWithin symbols (protocol_of term) →
            IsMarkWithin symbols mark → OnOk result (IsTrailWithin symbols self.new) }
    {
        self.terms.push(term)?;
        self.marks.push(mark)?;
        Ok(())
    }
}

// The trail that goes on to the terms in order, by their marks.
pub(crate) fn extended(trail: Trail, added: AddedTerms) -> Result<Trail, NoMemory>
    requires trail { length trail.terms ≡ suc (length trail.marks) }
    requires added { length added.terms ≡ length added.marks }
    ensures paired { IfOk result (λ longer. length longer.terms ≡ suc (length longer.marks)) }
    ensures first { IfOk result (λ longer. trail_first longer ≡ trail_first trail) }
    ensures links { IfOk result (λ longer. trail_links longer ≡ trail_links trail ++ links_of added.marks added.terms) }
    ensures within { (symbols : ℕ) → IsTrailWithin symbols trail →
        All (λ term. IsProtocolWithin symbols (protocol_of term)) added.terms →
        All (λ mark. IsMarkWithin symbols mark) added.marks →
        IfOk result (λ longer. IsTrailWithin symbols longer) }
{
    let mut terms = trail.terms.into_vec();
    terms.append(&mut added.terms.into_vec())?;
    let mut marks = trail.marks.into_vec();
    marks.append(&mut added.marks.into_vec())?;
    Ok(Trail {
        terms: List::from_vec(terms),
        marks: List::from_vec(marks),
    })
}

// ---- the way back

// Goes on from the last of the terms back to the first one, by the marks turned round.
fn push_back(trail: &mut Trail, mut terms: Vec<Proto>, mut marks: Vec<Mark>) -> Result<(), NoMemory>
    requires trail { length trail.old.terms ≡ suc (length trail.old.marks) }
    requires paired { length terms.items ≡ length marks.items }
    ensures paired { OnOk result (length trail.new.terms ≡ suc (length trail.new.marks)) }
    ensures first { OnOk result (trail_first trail.new ≡ trail_first trail.old) }
    ensures links { OnOk result (trail_links trail.new ≡ trail_links trail.old ++ back_links marks.items terms.items) }
    ensures within { (symbols : ℕ) → IsTrailWithin symbols trail.old →
        All (λ term. IsProtocolWithin symbols (protocol_of term)) terms.items →
        All (λ mark. IsMarkWithin symbols mark) marks.items → OnOk result (IsTrailWithin symbols trail.new) }
{
    while let Some(mark) = marks.pop() {
        let Some(term) = terms.pop() else {
            unreachable!();
        };
        trail.push(term, mark.turned())?;
    }
    Ok(())
}

// The left trail, and then the right one back to its first term, where both have come to one term.
pub(crate) fn turned_back(lefts: Trail, rights: Trail) -> Result<Trail, NoMemory>
    requires left { length lefts.terms ≡ suc (length lefts.marks) }
    requires right { length rights.terms ≡ suc (length rights.marks) }
    ensures first { IfOk result (λ trail. trail_first trail ≡ trail_first lefts) }
    ensures links { IfOk result (λ trail. trail_links trail
        ≡ trail_links lefts ++ turned_links (trail_first rights) (trail_links rights)) }
    ensures within { (symbols : ℕ) → IsTrailWithin symbols lefts → IsTrailWithin symbols rights →
        IfOk result (λ trail. IsTrailWithin symbols trail) }
{
    let Trail { terms, marks } = rights;
    let mut terms = terms.into_vec();
    let marks = marks.into_vec();
    terms.truncate(marks.len());
    let mut trail = lefts;
    push_back(&mut trail, terms, marks)?;
    Ok(trail)
}
