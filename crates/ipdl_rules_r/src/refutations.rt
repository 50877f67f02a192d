//! Each side condition that typing alone does not ask is needed: a left side that fails it, and no
//! other, is told apart from what the rule would make of it. The functions do nothing, and their
//! contracts are the refutations.

ghost use Rattle.std.specs.Prelude.{◌≡◌, Some, [], ◌∷◌};
ghost use Rattle.ipdl_rules_r.specs.Matching.{answer, failing};
ghost use Rattle.ipdl_rules_r.specs.Refutations.{AreApartOnA, IsRefutedWithout, abstract_symbol, again_of_a_flip, again_of_a_use, again_of_another_part, constant_table, dropr_of_a_read, dropr_of_a_use, ifsame_of_other_arms, mask_of_itself, perm_of_a_bit, perm_of_a_first_bit, right_side, swap_of_a_use, widened_bits, widening_table, x0};
ghost use Rattle.ipdl_rules_r.specs.Tables.{AreDifferent};
ghost use Rattle.ipdl_term.specs.Rules as R;
ghost use Rattle.ipdl_term.specs.Worked.{m};

/// `swap`: a part that uses the value before it does not have it when it is taken first.
pub fn swap_needs_an_unused_value()
    ensures { IsRefutedWithout 1 [] R.swap [] swap_of_a_use }
{}

/// `dropr`: a value that is used is missed when it is left out.
pub fn dropr_needs_an_unused_value()
    ensures { IsRefutedWithout 1 [] R.dropr [] dropr_of_a_use }
{}

/// `dropr`: what waits for a channel no longer does so when the `read` is left out.
pub fn dropr_needs_no_read()
    ensures { IsRefutedWithout 2 [] R.dropr (m ∷ []) dropr_of_a_read }
{}

/// `again`: a part that uses the first value need not give that value again.
pub fn again_needs_an_unused_value()
    ensures { IsRefutedWithout 1 [] R.again [] again_of_a_use }
{}

/// `again`: another part need not give the same value.
pub fn again_needs_the_same_part()
    ensures { IsRefutedWithout 2 [] R.again [] again_of_another_part }
{}

/// `again`: a second fair bit is not the first one again.
pub fn again_needs_no_flip()
    ensures { IsRefutedWithout 3 [] R.again [] again_of_a_flip }
{}

/// `ifsame`: where the arms differ, the test decides.
pub fn ifsame_needs_the_same_arms()
    ensures { IsRefutedWithout 1 [] R.ifsame [] ifsame_of_other_arms }
{}

/// `mask`: a fair bit that is masked with itself is no longer fair.
pub fn mask_needs_an_independent_mask()
    ensures { IsRefutedWithout 1 [] (R.mask x0) [] mask_of_itself }
{}

/// `perm`: an abstract symbol may be any function, so also one that makes no fair bit of a fair bit.
/// That its values are different cannot be asked.
pub fn perm_needs_a_table()
    ensures fails { answer (abstract_symbol ∷ []) (R.perm 0) perm_of_a_bit.left ≡ failing 1 }
    ensures right_side { right_side (abstract_symbol ∷ []) (R.perm 0) perm_of_a_bit.left ≡ Some perm_of_a_bit.right }
    ensures apart { AreApartOnA (abstract_symbol ∷ []) [] perm_of_a_bit }
{}

/// `perm`: a table to another width, be all its values different, need not have a fair first bit.
pub fn perm_needs_one_width()
    ensures fails { answer (widening_table ∷ []) (R.perm 0) perm_of_a_first_bit.left ≡ failing 1 }
    ensures different { AreDifferent widened_bits }
    ensures right_side { right_side (widening_table ∷ []) (R.perm 0) perm_of_a_first_bit.left ≡ Some perm_of_a_first_bit.right }
    ensures apart { AreApartOnA (widening_table ∷ []) [] perm_of_a_first_bit }
{}

/// `perm`: a table that repeats a value gives that value more often.
pub fn perm_needs_different_values()
    ensures { IsRefutedWithout 2 (constant_table ∷ []) (R.perm 0) [] perm_of_a_bit }
{}
