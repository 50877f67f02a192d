//! The first abstract symbol that occurs in a protocol.

ghost use Rattle.std.specs.Prelude.{◌≡◌, find};
ghost use Rattle.ipdl_mean.specs.Refusals.{first_abstract, symbols_in_reaction};
ghost use Rattle.ipdl_term.specs.Views.{reaction_of, protocol_of};
ghost use Rattle.ipdl_truth.specs.Abstract.{is_abstract};
ghost use Rattle.ipdl_typing.specs.Signatures.{signature_of};

use ipdl_sig::Sig;
use ipdl_term::{Proto, React};
use ipdl_truth::first_abstract_in;

// The first one in a reaction.
#[tactic(auto, using(ipdl_truth::proofs::Walks::found_in_two))]
fn first_in_reaction(sig: &Sig, reaction: &React) -> Option<u32>
    ensures { result ≡ find (is_abstract (signature_of sig.now))
        (symbols_in_reaction (reaction_of reaction.now)) }
{
    match reaction {
        React::Ret(e) => first_abstract_in(sig, e),
        React::Flip(_) | React::Read(_) => None,
        React::Cond(e, r, s) => first_abstract_in(sig, e).or(first_in_reaction(sig, r).or(
            first_in_reaction(sig, s),
        )),
        React::Bind(_, r, s) => first_in_reaction(sig, r).or(first_in_reaction(sig, s)),
    }
}

// The first one in a protocol.
#[tactic(auto, using(ipdl_truth::proofs::Walks::found_in_two))]
pub(crate) fn first_abstract(sig: &Sig, proto: &Proto) -> Option<u32>
    ensures { result ≡ first_abstract (signature_of sig.now) (protocol_of proto.now) }
{
    match proto {
        Proto::Nil => None,
        Proto::Out(_, r) => first_in_reaction(sig, r),
        Proto::Par(p, q) => first_abstract(sig, p).or(first_abstract(sig, q)),
        Proto::Hide(_, _, p) => first_abstract(sig, p),
    }
}
