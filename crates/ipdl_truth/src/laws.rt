//! The laws of the tables and of free variables. Each is a function that does nothing and has the
//! law as its contract.

ghost use Rattle.std.specs.Prelude.{◌≡◌, ◌↔◌, ℕ, List, None, Some, reverse, true};
ghost use Rattle.ipdl_term.specs.Interpretations.{Signature, Interpretation, Interprets, evaluation, variable_value};
ghost use Rattle.ipdl_term.specs.Surroundings.{FitWidths, Meets};
ghost use Rattle.ipdl_term.specs.Terms.{Expression, Value};
ghost use Rattle.ipdl_term.specs.Variables.{expression_uses};
ghost use Rattle.ipdl_truth.specs.Abstract.{HasTablesOnly};
ghost use Rattle.ipdl_truth.specs.Agreement.{AgreeEverywhere, DifferFirstAt};
ghost use Rattle.ipdl_truth.specs.FirstDifference.{first_difference};
ghost use Rattle.ipdl_truth.specs.Questions.{Question, first_abstract};
ghost use Rattle.ipdl_truth.specs.Tables.{tables_of};
ghost use Rattle.ipdl_typing.specs.Signatures.{signature_of};

use ipdl_sig::Sig;

/// The tables of a signature, with nothing but zeros for its abstract symbols, interpret it.
pub fn tables_interpret(sig: &Sig)
    ensures { Interprets (signature_of sig.now) (tables_of (signature_of sig.now)) }
{
    let _count = sig.count();
}

/// An expression in which no abstract symbol occurs has one value under all interpretations of the
/// signature: that which it has under the tables.
pub fn tables_suffice()
    ensures { (sig : Signature) (J : Interpretation) (env : List Value) (e : Expression) →
        Interprets sig J → HasTablesOnly sig e → evaluation J env e ≡ evaluation (tables_of sig) env e }
{}

/// Expressions with no abstract symbol that agree everywhere under the tables agree everywhere under
/// each interpretation of the signature.
pub fn agree_under_all()
    ensures { (q : Question) (J : Interpretation) (env : List Value) →
        first_abstract q ≡ None → AgreeEverywhere q → Interprets q.sig J →
        FitWidths q.widths env → Meets J (reverse env) q.conditions →
        evaluation J (reverse env) q.left ≡ evaluation J (reverse env) q.right }
{}

/// The value of an expression depends on the variables alone that occur in it.
pub fn value_of_free_variables()
    ensures { (J : Interpretation) (env others : List Value) (e : Expression) →
        ((n : ℕ) → expression_uses e n ≡ true → variable_value env n ≡ variable_value others n) →
        evaluation J env e ≡ evaluation J others e }
{}

/// The first difference of a question is the valuation at which the two expressions differ first, and
/// there is none exactly where they agree everywhere.
pub fn first_difference_exactly()
    ensures { (q : Question) →
        ((valuation : List (ℕ × Value)) → (first_difference q ≡ Some valuation) ↔ DifferFirstAt q valuation)
        × ((first_difference q ≡ None) ↔ AgreeEverywhere q) }
{}
