//! The rules that rewrite an expression, by the truth where its conditions are met or by its linear
//! forms: their laws, and the call that answers whether one applies.

ghost use Rattle.std.specs.Prelude.{◌≡◌, ◌↔◌, ◌⊎◌, ◌<◌, ◌≤◌, List, None, Some, length, map, reverse, ℕ};
ghost use Rattle.ipdl_laws.specs.MeanSame.{MeanSame};
ghost use Rattle.ipdl_linear.specs.Likeness as L;
ghost use Rattle.ipdl_linear.specs.Likeness.{Pair};
ghost use Rattle.ipdl_linear.specs.declared.likeness.Likeness.TheVariants.{Differ};
ghost use Rattle.ipdl_rules_r.specs.Expressions.{AreFoundAlike, AsksWhere, CanBeAsked, IsAnsweredSame, IsAsking, IsExpressionInstance, OfNone};
ghost use Rattle.ipdl_rules_r.specs.Told.{told_of, told_of_forms};
ghost use Rattle.ipdl_rules_r.specs.TruthTests.{TellsTruth, form_refusal, truth_refusal};
ghost use Rattle.ipdl_term.specs.Equality.{Equal};
ghost use Rattle.ipdl_term.specs.Interpretations.{Interpretation, Interprets, Signature};
ghost use Rattle.ipdl_term.specs.Places.{term_at, term_with};
ghost use Rattle.ipdl_term.specs.Rules.{Rule as StatedRule};
ghost use Rattle.ipdl_term.specs.Sizes.{saturated};
ghost use Rattle.ipdl_term.specs.Steps.{rule_of};
ghost use Rattle.ipdl_term.specs.Surroundings.{AreTests, Surroundings, around, condition_of, outermost};
ghost use Rattle.ipdl_term.specs.Terms.{Channel, Expression, Protocol, Value, expression_term, protocol_term};
ghost use Rattle.ipdl_term.specs.Typing.{HasWidth, Scope, Typed};
ghost use Rattle.ipdl_term.specs.Views.{expression_of};
ghost use Rattle.ipdl_truth.specs.Agreement.{DifferFirstAt};
ghost use Rattle.ipdl_truth.specs.FreeVariables.{greatest_free_bits};
ghost use Rattle.ipdl_truth.specs.Questions.{Question, first_abstract, free_bits, question_of, weight_of};
ghost use Rattle.ipdl_truth.specs.Weights.{greatest_weight};
ghost use Rattle.ipdl_typing.specs.Signatures.{signature_of};

use ipdl_base::{Bits, List};
use ipdl_linear::{Likeness, LinearFault, same_form};
use ipdl_sig::Sig;
use ipdl_term::{Condition, Expr, Rule};
use ipdl_truth::{Agreement, TruthFault, agree};
use std::alloc::Global;

/// Why a rule makes nothing of an expression.
#[derive(Debug, Drop)]
pub enum ExprFault {
    /// The rule is made for other terms.
    NoMatch,
    /// An abstract symbol occurs, and this is the number of the first.
    Abstract { symbol: u32 },
    /// The widths of all subexpressions add up to more than 8,192: to this number, or to more where
    /// it is the last `u64`.
    Large { bits: u64 },
    /// The widths of the free variables add up to more than 12: to this number.
    TooWide { bits: u64 },
    /// The two expressions differ, first at these values of the free variables: the depth of each,
    /// which is 0 for that of the outermost binder, and its value, the outermost first.
    NotSame { valuation: List<(u32, Bits)> },
    /// The linear forms of the two expressions differ, first in this bit, or this is the smaller width
    /// where the widths differ and all bits that both have agree.
    NotForm { bit: u8 },
    /// Memory ran out.
    Memory,
}

/// A typed expression and the typed one that the rule makes of it have one value under every
/// interpretation, wherever the variables fit and the conditions are met.
pub fn expression_instance_means()
    ensures { (sig : Signature) (J : Interpretation) → Interprets sig J →
        (s : Surroundings) (rule : StatedRule) (left right : Expression) (v w : ℕ) →
        HasWidth sig s.widths left v → HasWidth sig s.widths right w →
        IsExpressionInstance sig s.widths s.conditions rule left right →
        MeanSame J s (expression_term left) (expression_term right) }
{}

/// Two typed protocols, of which the one comes from the other by an expression that is replaced, at
/// its place, by what the rule makes of it there, are equal.
pub fn expression_instance_at_place()
    ensures { (sig : Signature) (scope : Scope) (written : List Channel)
        (p q : Protocol) (place : List ℕ) (rule : StatedRule) (left right : Expression) →
        let whole = protocol_term p in
        let s = around (outermost scope) whole place in
        Typed sig scope p written → Typed sig scope q written →
        term_at whole place ≡ Some (expression_term left) →
        term_with whole place (expression_term right) ≡ protocol_term q →
        IsExpressionInstance sig s.widths s.conditions rule left right →
        Equal sig scope written p q }
{}

/// A question is answered by "the same" exactly where none of the tests refuses it.
pub fn truth_exactly()
    ensures { (q : Question) → IsAnsweredSame q ↔ (truth_refusal q ≡ None) }
{}

/// Two expressions are found alike exactly where none of the tests refuses them.
pub fn forms_exactly()
    ensures { (p : Pair) → AreFoundAlike p ↔ (form_refusal p ≡ None) }
{}

// What the answer on the truth says of the rule.
fn told(answer: Result<Agreement, TruthFault>) -> Result<(), ExprFault>
    ensures { result ≡ told_of answer }
{
    match answer {
        Ok(Agreement::Same) => Ok(()),
        Ok(Agreement::Differ(valuation)) => Err(ExprFault::NotSame { valuation }),
        Err(TruthFault::Abstract { symbol }) => Err(ExprFault::Abstract { symbol }),
        Err(TruthFault::Large { bits }) => Err(ExprFault::Large { bits }),
        Err(TruthFault::TooWide { bits }) => Err(ExprFault::TooWide { bits }),
        Err(TruthFault::Memory) => Err(ExprFault::Memory),
    }
}

// What the answer on the linear forms says of the rule.
fn told_of_forms(answer: Result<Likeness, LinearFault>) -> Result<(), ExprFault>
    ensures { result ≡ told_of_forms answer }
{
    match answer {
        Ok(Likeness::Same) => Ok(()),
        Ok(Likeness::Differ { bit }) => Err(ExprFault::NotForm { bit }),
        Err(LinearFault::Large { bits }) => Err(ExprFault::Large { bits }),
        Err(LinearFault::Memory) => Err(ExprFault::Memory),
    }
}

/// Whether the rule makes something of the expression: of `table`, whether this and the rule's
/// expression have one value on all values of the variables that meet the innermost conditions, as
/// many as the rule says; of `lin`, whether the two have the same linear forms. `widths` are those
/// of the binders, from the outermost, and the conditions stand innermost first.
pub fn apply_expr(
    alloc: Global,
    sig: &Sig,
    widths: &[u8],
    conditions: &[Condition],
    rule: &Rule,
    old: &Expr,
) -> Result<(), ExprFault>
    requires old { (w : ℕ) × HasWidth (signature_of sig.now) (reverse widths.now)
        (expression_of old.now) w }
    requires rule { CanBeAsked (signature_of sig.now) (reverse widths.now)
        (map condition_of conditions.now) (rule_of rule.now) }
    requires binders { length widths.now ≤ 4294967295 }
    ensures ok { result ≡ Ok tt → (right : Expression) × IsExpressionInstance (signature_of sig.now)
        (reverse widths.now) (map condition_of conditions.now) (rule_of rule.now)
        (expression_of old.now) right }
    ensures instance { (right : Expression) → IsExpressionInstance (signature_of sig.now)
        (reverse widths.now) (map condition_of conditions.now) (rule_of rule.now)
        (expression_of old.now) right → (result ≡ Ok tt) ⊎ (result ≡ Err ExprFault.Memory) }
    ensures no_match { (result ≡ Err ExprFault.NoMatch) ↔ (IsAsking (rule_of rule.now) → ⊥) }
    ensures abstracts { (symbol : ℕ) → (result ≡ Err (ExprFault.Abstract symbol)) ↔
        AsksWhere (λ q. first_abstract q ≡ Some symbol) OfNone (signature_of sig.now)
        (reverse widths.now) (map condition_of conditions.now) (rule_of rule.now)
        (expression_of old.now) }
    ensures large { (bits : ℕ) → (result ≡ Err (ExprFault.Large bits)) ↔
        AsksWhere (λ q. (first_abstract q ≡ None) × (greatest_weight < weight_of q) ×
        (bits ≡ saturated (weight_of q))) (λ p. L.IsLarge p bits) (signature_of sig.now)
        (reverse widths.now) (map condition_of conditions.now) (rule_of rule.now)
        (expression_of old.now) }
    ensures too_wide { (bits : ℕ) → (result ≡ Err (ExprFault.TooWide bits)) ↔
        AsksWhere (λ q. (first_abstract q ≡ None) × (weight_of q ≤ greatest_weight) ×
        (greatest_free_bits < free_bits q) × (bits ≡ free_bits q)) OfNone (signature_of sig.now)
        (reverse widths.now) (map condition_of conditions.now) (rule_of rule.now)
        (expression_of old.now) }
    ensures not_same { (valuation : List (ℕ × Value)) →
        result ≡ Err (ExprFault.NotSame valuation) →
        AsksWhere (λ q. DifferFirstAt q valuation) OfNone (signature_of sig.now)
        (reverse widths.now) (map condition_of conditions.now) (rule_of rule.now)
        (expression_of old.now) }
    ensures not_form { (bit : ℕ) → result ≡ Err (ExprFault.NotForm bit) →
        AsksWhere OfNone (λ p. (L.weight_of p ≤ greatest_weight) × (L.likeness_of p ≡ Differ bit))
        (signature_of sig.now) (reverse widths.now) (map condition_of conditions.now)
        (rule_of rule.now) (expression_of old.now) }
    ensures told { IsAsking (rule_of rule.now) →
        AsksWhere (λ q. TellsTruth result (truth_refusal q))
        (λ p. TellsTruth result (form_refusal p)) (signature_of sig.now)
        (reverse widths.now) (map condition_of conditions.now) (rule_of rule.now)
        (expression_of old.now) }
{
    match rule {
        Rule::Table(k, new) => {
            let used = &conditions[..*k as usize];
            told(agree(alloc, sig, widths, old, new, used))
        }
        Rule::Lin(new) => told_of_forms(same_form(alloc, sig, widths, old, new)),
        _ => Err(ExprFault::NoMatch),
    }
}
