//! Worked questions over the definitions: each answer is computed. The functions do nothing, and
//! their contracts are the answers.

ghost use Rattle.std.specs.Prelude.{◌≡◌, ◌<◌, true, false, [], ◌∷◌, None, Some, reverse};
ghost use Rattle.ipdl_term.specs.Interpretations.{evaluation};
ghost use Rattle.ipdl_term.specs.Terms.{variable, application, literal};
ghost use Rattle.ipdl_truth.specs.Agreement.{AgreeEverywhere, DifferFirstAt};
ghost use Rattle.ipdl_truth.specs.FirstDifference.{first_difference};
ghost use Rattle.ipdl_truth.specs.FreeVariables.{reading};
ghost use Rattle.ipdl_truth.specs.Questions.{first_abstract, weight_of, free_variables, free_bits, valuation_of};
ghost use Rattle.ipdl_truth.specs.Tables.{tables_of};
ghost use Rattle.ipdl_truth.specs.Worked.{symbols, asked, zero_bit, cancelled, has_value, wide};

/// A table that turns one bit round, at either bit.
pub fn values_of_a_table()
    ensures at_zero { evaluation (tables_of symbols) [] (application 0 (literal (false ∷ []))) ≡ true ∷ [] }
    ensures at_one { evaluation (tables_of symbols) [] (application 0 (literal (true ∷ []))) ≡ false ∷ [] }
{}

/// A bit and itself cancel, so that they are zero everywhere.
pub fn cancelled_is_zero()
    ensures agree { AgreeEverywhere (asked cancelled zero_bit []) }
    ensures none { first_difference (asked cancelled zero_bit []) ≡ None }
{}

/// A bit is first other than zero where it is one. Where a condition says that it is zero it is so
/// everywhere.
pub fn a_bit_and_zero()
    ensures differ { DifferFirstAt (asked (variable 0) zero_bit []) ((0, true ∷ []) ∷ []) }
    ensures agree { AgreeEverywhere (asked (variable 0) zero_bit (has_value false ∷ [])) }
    ensures first { first_difference (asked (variable 0) zero_bit []) ≡ Some ((0, true ∷ []) ∷ []) }
    ensures none { first_difference (asked (variable 0) zero_bit (has_value false ∷ [])) ≡ None }
{}

/// A bit of another width than its zero differs on the least value that meets the condition.
pub fn widths_differ()
    ensures differ { DifferFirstAt (asked (variable 0) (literal []) (has_value true ∷ [])) ((0, true ∷ []) ∷ []) }
    ensures first { first_difference (asked (variable 0) (literal []) (has_value true ∷ [])) ≡ Some ((0, true ∷ []) ∷ []) }
{}

/// Of three variables the outermost and the innermost occur, and the abstract symbol is that of the
/// left expression, so that it has zeros. The values at which the two expressions differ first are the
/// least that meet the condition.
pub fn a_wide_question()
    ensures first { first_abstract wide ≡ Some 1 }
    ensures weight { weight_of wide ≡ 7 }
    ensures free { free_variables wide ≡ (0, 1) ∷ (2, 2) ∷ [] }
    ensures bits { free_bits wide ≡ 3 }
    ensures values { valuation_of wide ((true ∷ []) ∷ [] ∷ (false ∷ true ∷ []) ∷ [])
        ≡ (0, true ∷ []) ∷ (2, false ∷ true ∷ []) ∷ [] }
    ensures read { reading ((0, true ∷ []) ∷ (2, false ∷ true ∷ []) ∷ []) ≡ 5 }
    ensures first_values { first_difference wide ≡ Some ((0, false ∷ []) ∷ (2, false ∷ false ∷ []) ∷ []) }
{}
