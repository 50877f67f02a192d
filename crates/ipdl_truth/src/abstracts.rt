//! The first abstract symbol that occurs.

ghost use Rattle.std.specs.Prelude.{◌≡◌, find, map};
ghost use Rattle.ipdl_term.specs.Surroundings.{condition_of};
ghost use Rattle.ipdl_term.specs.Views.{expression_of};
ghost use Rattle.ipdl_truth.specs.Abstract.{is_abstract, symbols_in, symbols_in_all};
ghost use Rattle.ipdl_truth.specs.Questions.{tests_of, first_abstract};
ghost use Rattle.ipdl_truth.specs.Views.{asked_of};
ghost use Rattle.ipdl_typing.specs.Signatures.{signature_of};

use crate::question::Question;
use ipdl_sig::Sig;
use ipdl_term::{Condition, Expr};

// Whether the symbol is there and has no values.
fn is_abstract(sig: &Sig, number: u32) -> bool
    ensures { result ≡ is_abstract (signature_of sig.now) number }
{
    match sig.symbol(number) {
        Some(symbol) => symbol.values.is_none(),
        None => false,
    }
}

/// The first abstract symbol in an expression.
#[tactic(auto, using(crate::proofs::Walks::found_in_two))]
pub fn first_abstract_in(sig: &Sig, term: &Expr) -> Option<u32>
    ensures { result ≡ find (is_abstract (signature_of sig.now)) (symbols_in (expression_of term.now)) }
{
    match term {
        Expr::Lit(_) | Expr::Var(_) | Expr::Outer(_) => None,
        Expr::Apply(number, e) => {
            if is_abstract(sig, *number) {
                Some(*number)
            } else {
                first_abstract_in(sig, e)
            }
        }
        Expr::Not(a) | Expr::Cut(_, _, a) => first_abstract_in(sig, a),
        Expr::Xor(a, b) | Expr::And(a, b) | Expr::Cat(a, b) | Expr::Same(a, b) => {
            first_abstract_in(sig, a).or(first_abstract_in(sig, b))
        }
        Expr::Mux(test, a, b) => first_abstract_in(sig, test).or(first_abstract_in(sig, a).or(
            first_abstract_in(sig, b),
        )),
    }
}

// The first one in the tests.
fn first_in_tests(sig: &Sig, conditions: &[Condition]) -> Option<u32>
    ensures { result ≡ find (is_abstract (signature_of sig.now))
        (symbols_in_all (tests_of (map condition_of conditions.now))) }
{
    for condition in conditions {
        let first = first_abstract_in(sig, &condition.test);
        if first.is_some() {
            return first;
        }
    }
    None
}

// The first abstract symbol of a question.
#[tactic(auto, using(crate::proofs::Walks::found_in_two))]
pub(crate) fn first_abstract(question: &Question) -> Option<u32>
    ensures { result ≡ first_abstract (asked_of question.now) }
{
    let left = first_abstract_in(question.sig, question.left);
    let right = first_abstract_in(question.sig, question.right);
    left.or(right.or(first_in_tests(question.sig, question.conditions)))
}
