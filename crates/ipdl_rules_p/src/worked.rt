//! Worked rows: each answer is computed from the definitions. The functions do nothing, and their
//! contracts are the rows.

ghost use Rattle.std.specs.Prelude.{◌≡◌, [], ◌∷◌};
ghost use Rattle.ipdl_rules_p.specs.Matching.{answer, failing, gives, other_shape};
ghost use Rattle.ipdl_rules_p.specs.Worked.{a, beside_c_of_d, c, c_of_d, coin, copy_of_c, d, perhaps, read_c, read_d, two_coins, value_of_c};
ghost use Rattle.ipdl_term.specs.Rules as R;
ghost use Rattle.ipdl_term.specs.Terms.{assignment, binding, flipping, hiding, nil, parallel, returning, variable};

/// Each rule once, at a left side that meets what it asks; and `rename` around a `new` of the old
/// name.
pub fn each_rule_once()
    ensures comm { answer R.comm (parallel copy_of_c coin) ≡ gives (parallel coin copy_of_c) }
    ensures assocl { answer R.assocl (parallel copy_of_c (parallel coin two_coins)) ≡
        gives (parallel (parallel copy_of_c coin) two_coins) }
    ensures assocr { answer R.assocr (parallel (parallel copy_of_c coin) two_coins) ≡
        gives (parallel copy_of_c (parallel coin two_coins)) }
    ensures unit { answer R.unit (parallel coin nil) ≡ gives coin }
    ensures newswap { answer R.newswap (hiding c 1 (hiding d 2 (parallel coin two_coins))) ≡
        gives (hiding d 2 (hiding c 1 (parallel coin two_coins))) }
    ensures scope { answer R.scope (parallel copy_of_c (hiding d 2 two_coins)) ≡
        gives (hiding d 2 (parallel copy_of_c two_coins)) }
    ensures rename { answer (R.rename d) (hiding c 1 (parallel copy_of_c coin)) ≡
        gives (hiding d 1 (parallel (assignment a read_d) (assignment d (flipping 1)))) }
    ensures rename_around { answer (R.rename d) (hiding c 1 (parallel copy_of_c (hiding c 1 coin))) ≡
        gives (hiding d 1 (parallel (assignment a read_d) (hiding c 1 coin))) }
    ensures absorb { answer R.absorb (parallel coin (hiding d 2 two_coins)) ≡ gives coin }
    ensures fold { answer (R.fold (0 ∷ [])) (hiding c 1 (parallel (assignment a value_of_c) coin)) ≡
        gives (assignment a (binding 1 (flipping 1) (returning (variable 0)))) }
    ensures subst { answer (R.subst (0 ∷ [])) (beside_c_of_d (binding 1 read_c read_c)) ≡
        gives (beside_c_of_d (binding 1 read_d read_c)) }
    ensures drop { answer R.drop (beside_c_of_d (binding 1 read_c read_d)) ≡ gives (beside_c_of_d read_d) }
    ensures subsume { answer (R.subsume d 2) (beside_c_of_d value_of_c) ≡
        gives (beside_c_of_d (binding 2 read_d value_of_c)) }
    ensures diverge { answer R.diverge (assignment c value_of_c) ≡ gives (assignment c read_c) }
{}

/// Side conditions that fail: equal names of two hidden channels, a channel that the other part
/// reads, a new name that is free or hidden below, a part that writes, a second read, a channel that
/// its own part reads, a `flip`, a value that is used, and channels that are not read, or not on
/// every way.
pub fn failing_sides()
    ensures newswap { answer R.newswap (hiding c 2 (hiding c 1 coin)) ≡ failing 1 }
    ensures scope { answer R.scope (parallel copy_of_c (hiding c 1 coin)) ≡ failing 1 }
    ensures rename_to_a_free_name { answer (R.rename a) (hiding c 1 (parallel copy_of_c coin)) ≡ failing 1 }
    ensures rename_to_a_hidden_name { answer (R.rename d) (hiding c 1 (parallel coin (hiding d 2 two_coins))) ≡
        failing 1 }
    ensures absorb { answer R.absorb (parallel coin two_coins) ≡ failing 1 }
    ensures fold_of_two_reads { answer (R.fold (0 ∷ []))
        (hiding c 1 (parallel (assignment a (binding 1 read_c read_c)) coin)) ≡ failing 1 }
    ensures fold_of_an_own_read { answer (R.fold []) (hiding c 1 (parallel copy_of_c (assignment c read_c))) ≡
        failing 2 }
    ensures subst { answer (R.subst []) (parallel coin copy_of_c) ≡ failing 1 }
    ensures drop_of_a_used_value { answer R.drop (beside_c_of_d value_of_c) ≡ failing 1 }
    ensures drop_of_the_only_read { answer R.drop (beside_c_of_d (binding 1 read_c (flipping 1))) ≡ failing 2 }
    ensures drop_before_an_arm { answer R.drop (beside_c_of_d (binding 1 read_c (perhaps read_d))) ≡ failing 2 }
    ensures subsume_of_the_other { answer (R.subsume d 2) (beside_c_of_d (perhaps read_c)) ≡ failing 1 }
    ensures subsume_of_the_first { answer (R.subsume d 2) (parallel coin copy_of_c) ≡ failing 2 }
    ensures diverge { answer R.diverge (assignment c (perhaps read_c)) ≡ failing 1 }
{}

/// Protocols of other shapes, names that the shape has as one or as two, places at which the channel
/// is not read, and a rule that is for reactions.
pub fn other_shapes()
    ensures comm { answer R.comm nil ≡ other_shape }
    ensures unit { answer R.unit (parallel nil coin) ≡ other_shape }
    ensures newswap { answer R.newswap (hiding c 1 coin) ≡ other_shape }
    ensures scope { answer R.scope (parallel copy_of_c coin) ≡ other_shape }
    ensures rename { answer (R.rename d) coin ≡ other_shape }
    ensures fold_of_another { answer (R.fold []) (hiding c 1 (parallel copy_of_c two_coins)) ≡ other_shape }
    ensures fold_of_the_output { answer (R.fold []) (hiding c 1 (parallel (assignment c read_c) coin)) ≡ other_shape }
    ensures fold_at_no_read { answer (R.fold (1 ∷ [])) (hiding c 1 (parallel (assignment a value_of_c) coin)) ≡
        other_shape }
    ensures subst_at_no_place { answer (R.subst (2 ∷ [])) (beside_c_of_d value_of_c) ≡ other_shape }
    ensures subst_of_one_channel { answer (R.subst []) (parallel coin (assignment c read_c)) ≡ other_shape }
    ensures drop_of_another { answer R.drop (beside_c_of_d (binding 1 read_d read_c)) ≡ other_shape }
    ensures subsume_of_one_channel { answer (R.subsume d 2) (parallel c_of_d coin) ≡ other_shape }
    ensures diverge { answer R.diverge (hiding c 1 coin) ≡ other_shape }
    ensures of_reactions { answer R.beta coin ≡ other_shape }
{}
