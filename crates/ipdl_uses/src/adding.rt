//! The neighbours that a use adds.

ghost use Rattle.std.specs.Map.{values_of};
ghost use Rattle.std.specs.Prelude.{◌≡◌, ◌∷◌, [], ℕ, All, Contains, IfOk, List, length};
ghost use Rattle.ipdl_chain.specs.Views.{HasOneTermMore, IsMarkWithin, IsWithin, chain_of};
ghost use Rattle.ipdl_embed.specs.Completing.{completed};
ghost use Rattle.ipdl_embed.specs.Pairs.{Pairs};
ghost use Rattle.ipdl_term.specs.Channels.{AreDisjoint};
ghost use Rattle.ipdl_term.specs.Renaming.{hidden_channels};
ghost use Rattle.ipdl_term.specs.Steps.{direction_of, lr, rl};
ghost use Rattle.ipdl_term.specs.Views.{context_of, protocol_of};
ghost use Rattle.ipdl_term.specs.declared.protocol.Proto.{Proto as Held};
ghost use Rattle.ipdl_term.specs.Within.{IsContextWithin, IsProtocolWithin};
ghost use Rattle.ipdl_uses.specs.Adding.{AreAmong, directed, far_of, lent_terms, links_back, links_by, terms_at};
ghost use Rattle.ipdl_uses.specs.Lemmas.{assumed_chain, hidden_in_chain, is_exact};
ghost use Rattle.ipdl_uses.specs.Uses.{Use, all_neighbours, one_neighbour, to_side, used};
ghost use Rattle.ipdl_uses.specs.Views.{IsKeptClaim, lemma_of, use_at};

use crate::carrying::carried_marks;
use crate::known::{Claim, Known};
use crate::site::Site;
use ipdl_base::{Name, NoMemory, Path};
use ipdl_chain::{Chain, Mark};
use ipdl_term::{Dir, Proto, copy_ctx};
use std::alloc::Global;

/// The terms that a use leads to, as they stand in the chain that is used, in the order in which
/// they are added, and the mark of each.
pub struct Added<'a> {
    pub terms: Vec<&'a Proto>,
    pub marks: Vec<Mark>,
}

// The terms, as they are lent.
fn lent<'a>(alloc: Global, terms: &'a [Proto]) -> Result<Vec<&'a Proto>, NoMemory>
    ensures { IfOk result (λ made. lent_terms made.items ≡ terms.now) }
{
    let mut made = Vec::new(alloc);
    for term in terms {
        made.push(term)?;
    }
    Ok(made)
}

// From the last mark back to the first one, each turned, with the term above it.
fn turned_back<'a>(
    alloc: Global,
    mut marks: Vec<Mark>,
    mut uppers: Vec<&'a Proto>,
) -> Result<Added<'a>, NoMemory>
    requires { length uppers.items ≡ length marks.items }
    ensures links { (u : Use) → IfOk result (λ added.
        links_by added.marks.items (terms_at u (lent_terms added.terms.items))
        ≡ links_back marks.items (terms_at u (lent_terms uppers.entry.items))) }
    ensures paired { IfOk result (λ added. length added.terms.items ≡ length added.marks.items) }
    ensures marks { (symbols : ℕ) → All (λ mark. IsMarkWithin symbols mark) marks.items →
        IfOk result (λ added. All (λ mark. IsMarkWithin symbols mark) added.marks.items) }
    ensures terms { (terms : List Held) → AreAmong terms uppers.entry.items →
        IfOk result (λ added. AreAmong terms added.terms.items) }
{
    let mut lower = Vec::new(alloc);
    let mut turned = Vec::new(alloc);
    while let Some(mark) = marks.pop() {
        let Some(upper) = uppers.pop() else {
            unreachable!();
        };
        lower.push(upper)?;
        turned.push(mark.turned())?;
    }
    Ok(Added {
        terms: lower,
        marks: turned,
    })
}

// One neighbour.
fn one_added<'a>(alloc: Global, term: &'a Proto, mark: Mark) -> Result<Added<'a>, NoMemory>
    ensures terms { IfOk result (λ added. lent_terms added.terms.items ≡ term.now ∷ []) }
    ensures marks { IfOk result (λ added. added.marks.items ≡ mark ∷ []) }
{
    let mut terms = Vec::new(alloc);
    let mut marks = Vec::new(alloc);
    terms.push(term)?;
    marks.push(mark)?;
    Ok(Added { terms, marks })
}

// The side to which a use leads.
fn far_side<'a>(dir: Dir, left: &'a Proto, right: &'a Proto) -> &'a Proto
    ensures { result.now ≡ far_of (direction_of dir) left.now right.now }
{
    match dir {
        Dir::Lr => right,
        Dir::Rl => left,
    }
}

// The end of the chain to which a use leads.
fn far_end<'a>(dir: Dir, chain: &'a Chain) -> &'a Proto
    requires { HasOneTermMore chain.now }
    ensures value { protocol_of result.now ≡ to_side (direction_of dir) (chain_of chain.now) }
    ensures among { Contains chain.now.terms result.now }
{
    let terms = chain.terms.as_slice();
    let last = chain.marks.as_slice().len();
    far_side(dir, &terms[0], &terms[last])
}

// By an assumption of two sides.
fn assumption_added<'a>(
    alloc: Global,
    known: &Known<'a>,
    dir: Dir,
    site: &Site<'_>,
    left: &'a Proto,
    right: &'a Proto,
) -> Result<Added<'a>, NoMemory>
    requires pairs { site.now.pairs.now ≡ site.now.renaming.now }
    requires named { (given : Pairs) × (site.now.renaming.now ≡ completed known.now.interface.now given) }
    ensures links { IfOk result (λ added. links_by added.marks.items (terms_at (use_at known.now.name.now site.now) (lent_terms added.terms.items))
        ≡ (used (direction_of dir) (use_at known.now.name.now site.now)
        (assumed_chain known.now.name.now known.now.interface.now (protocol_of left.now) (protocol_of right.now))).links) }
    ensures paired { IfOk result (λ added. length added.terms.items ≡ length added.marks.items) }
    ensures marks { (symbols : ℕ) → IsContextWithin symbols (context_of site.now.ctx.now) →
        IfOk result (λ added. All (λ mark. IsMarkWithin symbols mark) added.marks.items) }
    ensures terms { IfOk result (λ added. AreAmong (left.now ∷ right.now ∷ []) added.terms.items) }
{
    let name = known.name.copy(alloc)?;
    let path = Path::from_parts(alloc, site.path.parts())?;
    let renaming = site.pairs.share()?;
    let ctx = copy_ctx(alloc, site.ctx)?;
    let mark = Mark::ByAssumption {
        dir,
        name,
        path,
        renaming,
        ctx,
    };
    let term = far_side(dir, left, right);
    let added = one_added(alloc, term, mark)?;
    Ok(added)
}

// By a theorem that rests on no assumption.
fn theorem_added<'a>(
    alloc: Global,
    name: &Name,
    dir: Dir,
    site: &Site<'_>,
    chain: &'a Chain,
) -> Result<Added<'a>, NoMemory>
    requires complete { HasOneTermMore chain.now }
    requires pairs { site.now.pairs.now ≡ site.now.renaming.now }
    ensures links { IfOk result (λ added. links_by added.marks.items (terms_at (use_at name.now site.now) (lent_terms added.terms.items))
        ≡ (directed (direction_of dir) (one_neighbour (use_at name.now site.now) (chain_of chain.now))).links) }
    ensures paired { IfOk result (λ added. length added.terms.items ≡ length added.marks.items) }
    ensures marks { (symbols : ℕ) →
        IfOk result (λ added. All (λ mark. IsMarkWithin symbols mark) added.marks.items) }
    ensures terms { IfOk result (λ added. AreAmong chain.now.terms added.terms.items) }
{
    let name = name.copy(alloc)?;
    let path = Path::from_parts(alloc, site.path.parts())?;
    let renaming = site.pairs.share()?;
    let mark = Mark::ByTheorem {
        dir,
        name,
        path,
        renaming,
    };
    let term = far_end(dir, chain);
    let added = one_added(alloc, term, mark)?;
    Ok(added)
}

// All neighbours of a chain, from its first term on.
fn all_forward<'a>(alloc: Global, site: &Site<'_>, chain: &'a Chain) -> Result<Added<'a>, NoMemory>
    requires { HasOneTermMore chain.now }
    ensures links { IfOk result (λ added. links_by added.marks.items (terms_at (use_at [] site.now) (lent_terms added.terms.items))
        ≡ (directed lr (all_neighbours (use_at [] site.now) (chain_of chain.now))).links) }
    ensures paired { IfOk result (λ added. length added.terms.items ≡ length added.marks.items) }
    ensures marks { (symbols : ℕ) → IsWithin symbols chain.now → IsContextWithin symbols (context_of site.now.ctx.now) →
        IfOk result (λ added. All (λ mark. IsMarkWithin symbols mark) added.marks.items) }
    ensures terms { IfOk result (λ added. AreAmong chain.now.terms added.terms.items) }
{
    let marks = carried_marks(alloc, site, chain)?;
    let all = chain.terms.as_slice();
    let terms = lent(alloc, &all[1..])?;
    Ok(Added { terms, marks })
}

// All neighbours of a chain, from its last term back.
fn all_back<'a>(alloc: Global, site: &Site<'_>, chain: &'a Chain) -> Result<Added<'a>, NoMemory>
    requires { HasOneTermMore chain.now }
    ensures links { IfOk result (λ added. links_by added.marks.items (terms_at (use_at [] site.now) (lent_terms added.terms.items))
        ≡ (directed rl (all_neighbours (use_at [] site.now) (chain_of chain.now))).links) }
    ensures paired { IfOk result (λ added. length added.terms.items ≡ length added.marks.items) }
    ensures marks { (symbols : ℕ) → IsWithin symbols chain.now → IsContextWithin symbols (context_of site.now.ctx.now) →
        IfOk result (λ added. All (λ mark. IsMarkWithin symbols mark) added.marks.items) }
    ensures terms { IfOk result (λ added. AreAmong chain.now.terms added.terms.items) }
{
    let marks = carried_marks(alloc, site, chain)?;
    let all = chain.terms.as_slice();
    let last = marks.len();
    let uppers = lent(alloc, &all[..last])?;
    let added = turned_back(alloc, marks, uppers)?;
    Ok(added)
}

// All neighbours of a chain.
fn all_added<'a>(
    alloc: Global,
    name: &Name,
    dir: Dir,
    site: &Site<'_>,
    chain: &'a Chain,
) -> Result<Added<'a>, NoMemory>
    requires { HasOneTermMore chain.now }
    ensures links { IfOk result (λ added. links_by added.marks.items (terms_at (use_at name.now site.now) (lent_terms added.terms.items))
        ≡ (directed (direction_of dir) (all_neighbours (use_at name.now site.now) (chain_of chain.now))).links) }
    ensures paired { IfOk result (λ added. length added.terms.items ≡ length added.marks.items) }
    ensures marks { (symbols : ℕ) → IsWithin symbols chain.now → IsContextWithin symbols (context_of site.now.ctx.now) →
        IfOk result (λ added. All (λ mark. IsMarkWithin symbols mark) added.marks.items) }
    ensures terms { IfOk result (λ added. AreAmong chain.now.terms added.terms.items) }
{
    match dir {
        Dir::Lr => all_forward(alloc, site, chain),
        Dir::Rl => all_back(alloc, site, chain),
    }
}

// Whether no mark of the chain is an assumption.
fn rests_on_none(chain: &Chain) -> bool
    ensures { result ≡ is_exact (chain_of chain.now) }
{
    chain.exact() == chain.neighbours()
}

// By a theorem.
fn chain_added<'a>(
    alloc: Global,
    name: &Name,
    dir: Dir,
    site: &Site<'_>,
    chain: &'a Chain,
) -> Result<Added<'a>, NoMemory>
    requires complete { HasOneTermMore chain.now }
    requires pairs { site.now.pairs.now ≡ site.now.renaming.now }
    ensures links { IfOk result (λ added. links_by added.marks.items (terms_at (use_at name.now site.now) (lent_terms added.terms.items))
        ≡ (used (direction_of dir) (use_at name.now site.now) (chain_of chain.now)).links) }
    ensures paired { IfOk result (λ added. length added.terms.items ≡ length added.marks.items) }
    ensures marks { (symbols : ℕ) → IsWithin symbols chain.now → IsContextWithin symbols (context_of site.now.ctx.now) →
        IfOk result (λ added. All (λ mark. IsMarkWithin symbols mark) added.marks.items) }
    ensures terms { IfOk result (λ added. AreAmong chain.now.terms added.terms.items) }
{
    if rests_on_none(chain) {
        theorem_added(alloc, name, dir, site, chain)
    } else {
        all_added(alloc, name, dir, site, chain)
    }
}

/// The neighbours that what is known adds at the site, from its left side to its right one or back.
pub fn neighbours_added<'a>(
    alloc: Global,
    known: &Known<'a>,
    dir: Dir,
    site: &Site<'_>,
) -> Result<Added<'a>, NoMemory>
    requires kept { (symbols : ℕ) × IsKeptClaim symbols known.now.claim }
    requires pairs { site.now.pairs.now ≡ site.now.renaming.now }
    requires named { (given : Pairs) × (site.now.renaming.now ≡ completed known.now.interface.now given) }
    ensures links { IfOk result (λ added. links_by added.marks.items (terms_at (use_at known.now.name.now site.now) (lent_terms added.terms.items))
        ≡ (used (direction_of dir) (use_at known.now.name.now site.now) (lemma_of known.now).chain).links) }
    ensures paired { IfOk result (λ added. length added.terms.items ≡ length added.marks.items) }
    ensures marks { (symbols : ℕ) → IsKeptClaim symbols known.now.claim → IsContextWithin symbols (context_of site.now.ctx.now) →
        IfOk result (λ added. All (λ mark. IsMarkWithin symbols mark) added.marks.items) }
    ensures terms { (symbols : ℕ) → IsKeptClaim symbols known.now.claim →
        IfOk result (λ added. All (λ term. IsProtocolWithin symbols (protocol_of term.now)) added.terms.items) }
    ensures free { AreDisjoint (values_of site.now.renaming.now) (hidden_in_chain (lemma_of known.now).chain) →
        IfOk result (λ added. All (λ term. AreDisjoint (values_of site.now.renaming.now) (hidden_channels (protocol_of term.now))) added.terms.items) }
{
    match known.claim {
        Claim::Assumption { left, right } => {
            assumption_added(alloc, known, dir, site, left, right)
        }
        Claim::Theorem(chain) => chain_added(alloc, known.name, dir, site, chain),
    }
}
