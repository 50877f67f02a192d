//! Whether the values of the binders meet conditions.

ghost use Rattle.std.specs.Prelude.{◌≡◌, ◌∷◌, ◌↔◌, [], IsTrue, map, reverse};
ghost use Rattle.ipdl_term.specs.Interpretations.{evaluation};
ghost use Rattle.ipdl_term.specs.Surroundings.{condition_of, Meets};
ghost use Rattle.ipdl_term.specs.Views.{expression_of};
ghost use Rattle.ipdl_truth.specs.Tables.{tables_of};
ghost use Rattle.ipdl_typing.specs.Signatures.{signature_of};

use crate::evaluation::value_of;
use ipdl_base::Bits;
use ipdl_sig::Sig;
use ipdl_term::Condition;

// The one bit.
fn one_bit(bit: bool) -> Bits
    ensures { result ≡ bit ∷ [] }
{
    let value = if bit { 1 } else { 0 };
    Bits::new(1, value).unwrap()
}

// Whether the test has the wanted value.
fn is_met(sig: &Sig, env: &[Bits], condition: &Condition) -> bool
    ensures { IsTrue result ↔ (evaluation (tables_of (signature_of sig.now)) (reverse env.now)
        (expression_of condition.now.test) ≡ condition.now.value ∷ []) }
{
    value_of(sig, env, &condition.test) == one_bit(condition.value)
}

// Whether all tests have theirs.
pub(crate) fn are_met(sig: &Sig, env: &[Bits], conditions: &[Condition]) -> bool
    ensures { IsTrue result ↔ Meets (tables_of (signature_of sig.now)) (reverse env.now)
        (map condition_of conditions.now) }
{
    for condition in conditions {
        if !is_met(sig, env, condition) {
            return false;
        }
    }
    true
}
