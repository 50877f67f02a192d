//! Marks of a chain, where the chain is used.

ghost use Rattle.std.specs.Prelude.{◌≡◌, ◌++◌, ℕ, All, IfOk, [], length, map};
ghost use Rattle.ipdl_chain.specs.Chains.{by_assumption, by_rule, by_theorem};
ghost use Rattle.ipdl_chain.specs.Views.{HasOneTermMore, IsMarkWithin, IsWithin, chain_of, mark_of};
ghost use Rattle.ipdl_term.specs.Contexts.{nested};
ghost use Rattle.ipdl_term.specs.Renaming.{renamed_context, renaming_of};
ghost use Rattle.ipdl_term.specs.Steps.{direction_of};
ghost use Rattle.ipdl_term.specs.Views.{context_of, protocol_of};
ghost use Rattle.ipdl_term.specs.Within.{IsContextWithin};
ghost use Rattle.ipdl_uses.specs.Adding.{carried_marks};
ghost use Rattle.ipdl_uses.specs.Uses.{instance_mark};
ghost use Rattle.ipdl_uses.specs.Views.{use_at};

use crate::site::Site;
use ipdl_base::{Name, NoMemory, Path};
use ipdl_chain::{Chain, Mark};
use ipdl_embed::{SharedPairs, embed_ctx, follow, follow_below, hidden_around_place};
use ipdl_term::{Ctx, Dir, Proto, nest};
use std::alloc::Global;

// The one path after the other.
fn joined(alloc: Global, outer: &Path, inner: &Path) -> Result<Path, NoMemory>
    ensures { IfOk result (λ path. path ≡ outer.now ++ inner.now) }
{
    let mut path = Path::from_parts(alloc, outer.parts())?;
    let parts = inner.parts();
    for child in parts {
        path.push(*child)?;
    }
    Ok(path)
}

// A mark by a rule.
fn carried_by_rule(
    alloc: Global,
    site: &Site<'_>,
    upper: &Proto,
    dir: Dir,
    word: &Name,
    path: &Path,
) -> Result<Mark, NoMemory>
    ensures value { IfOk result (λ made. mark_of made ≡ instance_mark (use_at [] site.now)
        (protocol_of upper.now) (by_rule (direction_of dir) word.now path.now)) }
    ensures within { (symbols : ℕ) → IfOk result (λ made. IsMarkWithin symbols made) }
{
    let path = joined(alloc, site.path, path)?;
    let word = word.copy(alloc)?;
    Ok(Mark::ByRule { dir, word, path })
}

// A mark by a theorem, which is used in the term above.
fn carried_by_theorem(
    alloc: Global,
    site: &Site<'_>,
    upper: &Proto,
    dir: Dir,
    name: &Name,
    path: &Path,
    renaming: &SharedPairs,
) -> Result<Mark, NoMemory>
    ensures value { IfOk result (λ made. mark_of made ≡ instance_mark (use_at [] site.now)
        (protocol_of upper.now) (by_theorem (direction_of dir) name.now path.now renaming.now)) }
    ensures within { (symbols : ℕ) → IfOk result (λ made. IsMarkWithin symbols made) }
{
    let hidden = hidden_around_place(alloc, upper, path)?;
    let pairs = renaming.as_slice();
    let renaming = follow_below(alloc, site.renaming, hidden.as_slice(), pairs)?;
    let path = joined(alloc, site.path, path)?;
    let name = name.copy(alloc)?;
    Ok(Mark::ByTheorem {
        dir,
        name,
        path,
        renaming,
    })
}

// What is around a mark's own place, in the new names and with what is around the use. No new name is
// hidden in the context of a mark whose terms it is not hidden in.
fn context_below(alloc: Global, site: &Site<'_>, ctx: &Ctx) -> Result<Ctx, NoMemory>
    ensures value { IfOk result (λ made. context_of made ≡ nested (context_of site.now.ctx.now)
        (renamed_context (renaming_of site.now.renaming.now) (context_of ctx.now))) }
    ensures within { (symbols : ℕ) → IsContextWithin symbols (context_of ctx.now) →
        IsContextWithin symbols (context_of site.now.ctx.now) →
        IfOk result (λ made. IsContextWithin symbols (context_of made)) }
{
    match embed_ctx(alloc, site.renaming, ctx) {
        Ok(inner) => {
            let whole = nest(alloc, site.ctx, &inner)?;
            Ok(whole)
        }
        Err(_) => Err(NoMemory),
    }
}

// A mark by an assumption.
fn carried_by_assumption(
    alloc: Global,
    site: &Site<'_>,
    upper: &Proto,
    dir: Dir,
    name: &Name,
    path: &Path,
    renaming: &SharedPairs,
    ctx: &Ctx,
) -> Result<Mark, NoMemory>
    ensures value { IfOk result (λ made. mark_of made ≡ instance_mark (use_at [] site.now)
        (protocol_of upper.now)
        (by_assumption (direction_of dir) name.now path.now renaming.now (context_of ctx.now))) }
    ensures within { (symbols : ℕ) → IsContextWithin symbols (context_of ctx.now) →
        IsContextWithin symbols (context_of site.now.ctx.now) →
        IfOk result (λ made. IsMarkWithin symbols made) }
{
    let renaming = follow(alloc, site.renaming, ctx, renaming.as_slice())?;
    let ctx = context_below(alloc, site, ctx)?;
    let path = joined(alloc, site.path, path)?;
    let name = name.copy(alloc)?;
    Ok(Mark::ByAssumption {
        dir,
        name,
        path,
        renaming,
        ctx,
    })
}

// The mark where the chain is used, in which this term is above it.
fn carried_mark(
    alloc: Global,
    site: &Site<'_>,
    upper: &Proto,
    mark: &Mark,
) -> Result<Mark, NoMemory>
    ensures value { IfOk result (λ made. mark_of made ≡
        instance_mark (use_at [] site.now) (protocol_of upper.now) (mark_of mark.now)) }
    ensures within { (symbols : ℕ) → IsMarkWithin symbols mark.now →
        IsContextWithin symbols (context_of site.now.ctx.now) →
        IfOk result (λ made. IsMarkWithin symbols made) }
{
    match mark {
        Mark::ByRule { dir, word, path } => carried_by_rule(alloc, site, upper, *dir, word, path),
        Mark::ByTheorem {
            dir,
            name,
            path,
            renaming,
        } => carried_by_theorem(alloc, site, upper, *dir, name, path, renaming),
        Mark::ByAssumption {
            dir,
            name,
            path,
            renaming,
            ctx,
        } => carried_by_assumption(alloc, site, upper, *dir, name, path, renaming, ctx),
    }
}

// The marks of the chain where it is used, in order.
pub(crate) fn carried_marks(
    alloc: Global,
    site: &Site<'_>,
    chain: &Chain,
) -> Result<Vec<Mark>, NoMemory>
    requires { HasOneTermMore chain.now }
    ensures value { IfOk result (λ made. map mark_of made.items ≡
        carried_marks (use_at [] site.now) (chain_of chain.now).first (chain_of chain.now).links) }
    ensures count { IfOk result (λ made. length made.items ≡ length chain.now.marks) }
    ensures within { (symbols : ℕ) → IsWithin symbols chain.now →
        IsContextWithin symbols (context_of site.now.ctx.now) →
        IfOk result (λ made. All (λ mark. IsMarkWithin symbols mark) made.items) }
{
    let terms = chain.terms.as_slice();
    let mut made = Vec::new(alloc);
    for (index, mark) in chain.marks.as_slice().iter().enumerate() {
        let carried = carried_mark(alloc, site, &terms[index], mark)?;
        made.push(carried)?;
    }
    Ok(made)
}
