//! Worked rows of the rules that rewrite an expression: each is computed from the definitions. The
//! functions do nothing, and their contracts are the rows.

ghost use Rattle.std.specs.Prelude.{◌≡◌, false, true, [], ◌∷◌, None, Some};
ghost use Rattle.ipdl_rules_r.specs.Expressions.{IsExpressionInstance, pair_at, question_at};
ghost use Rattle.ipdl_rules_r.specs.TruthTests.{differ_at, form_refusal, other_forms, too_wide, truth_refusal};
ghost use Rattle.ipdl_rules_r.specs.Worked.{symbols, v0, v1};
ghost use Rattle.ipdl_rules_r.specs.WorkedExpressions.{cancelled, nothing_of, two_arms, two_binders};
ghost use Rattle.ipdl_term.specs.Rules as R;
ghost use Rattle.ipdl_term.specs.Terms.{conjunction};

/// `(xor x x)` is `#000000000000`, for an x of 12 bits and with no condition.
pub fn cancelled_bits_are_zeros()
    ensures { IsExpressionInstance symbols (12 ∷ []) [] (R.table 0 (nothing_of 12)) cancelled (nothing_of 12) }
{}

/// Variables that are zero in the arms around them. The inner one is so by the innermost condition,
/// the outer one by both and not by the innermost alone; and three conditions are not there.
pub fn variables_in_their_arms()
    ensures inner { IsExpressionInstance symbols two_binders two_arms (R.table 1 (nothing_of 1)) v0 (nothing_of 1) }
    ensures outer { IsExpressionInstance symbols two_binders two_arms (R.table 2 (nothing_of 2)) v1 (nothing_of 2) }
    ensures innermost_alone { IsExpressionInstance symbols two_binders two_arms (R.table 1 (nothing_of 2)) v1 (nothing_of 2) → ⊥ }
    ensures too_many { IsExpressionInstance symbols two_binders two_arms (R.table 3 (nothing_of 2)) v1 (nothing_of 2) → ⊥ }
{}

/// The outer one differs from zeros first at `#01`, where the innermost condition alone is met. A
/// value of 13 bits is too wide.
pub fn refused_questions()
    ensures both { truth_refusal (question_at symbols two_binders two_arms 2 v1 (nothing_of 2)) ≡ None }
    ensures innermost_alone { truth_refusal (question_at symbols two_binders two_arms 1 v1 (nothing_of 2))
        ≡ Some (differ_at ((0, false ∷ true ∷ []) ∷ (1, false ∷ []) ∷ [])) }
    ensures wide { truth_refusal (question_at symbols (13 ∷ []) [] 0 cancelled (nothing_of 13)) ≡ Some (too_wide 13) }
{}

/// `lin` makes `(and x y)` of `(and y x)`, for an x and a y of one bit. A variable of one bit and `#0`
/// have other forms, first of bit 0.
pub fn exchanged_factors_and_an_odd_bit()
    ensures exchanged { IsExpressionInstance symbols (1 ∷ 1 ∷ []) [] (R.lin (conjunction v0 v1)) (conjunction v1 v0) (conjunction v0 v1) }
    ensures odd { form_refusal (pair_at symbols (1 ∷ []) v0 (nothing_of 1)) ≡ Some (other_forms 0) }
{}

/// A rule for protocols makes nothing of an expression.
pub fn no_rule_for_expressions()
    ensures { IsExpressionInstance symbols [] [] R.comm (nothing_of 1) (nothing_of 1) → ⊥ }
{}
