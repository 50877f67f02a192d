//! The side from which something is used.

ghost use Rattle.std.specs.Prelude.{◌≡◌, ℕ};
ghost use Rattle.ipdl_chain.specs.Views.{HasOneTermMore, chain_of};
ghost use Rattle.ipdl_term.specs.Steps.{direction_of};
ghost use Rattle.ipdl_term.specs.Views.{protocol_of};
ghost use Rattle.ipdl_uses.specs.Uses.{from_side};
ghost use Rattle.ipdl_uses.specs.Views.{IsKeptClaim, lemma_of};

use crate::known::{Claim, Known};
use ipdl_chain::Chain;
use ipdl_term::{Dir, Proto};

// The end of the chain at which it begins in this direction.
fn end_of<'a>(chain: &'a Chain, dir: Dir) -> &'a Proto
    requires { HasOneTermMore chain.now }
    ensures { protocol_of result.now ≡ from_side (direction_of dir) (chain_of chain.now) }
{
    let terms = chain.terms.as_slice();
    match dir {
        Dir::Lr => &terms[0],
        Dir::Rl => &terms[terms.len() - 1],
    }
}

// The side from which what is known is used in this direction.
pub(crate) fn side_of<'a>(known: &Known<'a>, dir: Dir) -> &'a Proto
    requires { (symbols : ℕ) × IsKeptClaim symbols known.now.claim }
    ensures { protocol_of result.now ≡ from_side (direction_of dir) (lemma_of known.now).chain }
{
    match known.claim {
        Claim::Assumption { left, right } => match dir {
            Dir::Lr => left,
            Dir::Rl => right,
        },
        Claim::Theorem(chain) => end_of(chain, dir),
    }
}
