//! For each case: both protocols have one interface, the second is what the rule makes of the first,
//! and they are equal there. A count tells what is written.

ghost use Rattle.std.specs.Prelude.{◌≡◌, List, [], ◌∷◌, Some};
ghost use Rattle.ipdl_rules_p.specs.Instances.{IsProtocolInstance};
ghost use Rattle.ipdl_rules_r.specs.Instances.{IsReactionInstance};
ghost use Rattle.ipdl_term.specs.Places.{term_at, term_with};
ghost use Rattle.ipdl_term.specs.Rules as R;
ghost use Rattle.ipdl_term.specs.Terms.{hole, protocol_term, reaction_term, variable};
ghost use Rattle.ipdl_term.specs.Worked.{a, b, c, m, one, zero_bit};
ghost use Rattle.ipdl_worked.specs.Cases.{AreEqual, ClosesInterface, HaveCount, HaveInterface, c_fed_into_m, coin_read, coin_masked, drop_before_constant, drop_of_arm, fold_of_stuck, mask_of_input, o, subst_in_arm};

/// `fold`: two channels that wait for each other become one that waits for itself. Neither writes.
pub fn fold_of_two_stuck_channels()
    ensures typed { HaveInterface [] (o ∷ []) fold_of_stuck }
    ensures instance { IsProtocolInstance (R.fold []) fold_of_stuck.left fold_of_stuck.right }
    ensures equal { AreEqual [] (o ∷ []) fold_of_stuck }
    ensures stuck { HaveCount hole 0 [] 1 fold_of_stuck }
{}

/// `subst`: an assignment comes to read its own channel, in an arm that is never taken. Both write
/// both channels.
pub fn subst_at_a_place_that_is_not_reached()
    ensures typed { HaveInterface [] (a ∷ b ∷ []) subst_in_arm }
    ensures instance { IsProtocolInstance (R.subst (1 ∷ [])) subst_in_arm.left subst_in_arm.right }
    ensures equal { AreEqual [] (a ∷ b ∷ []) subst_in_arm }
    ensures written { HaveCount hole 0 ((a, zero_bit) ∷ (b, zero_bit) ∷ []) 1 subst_in_arm }
{}

/// `drop`: what waits for nothing need not be waited for. Both write both channels.
pub fn drop_before_a_constant()
    ensures typed { HaveInterface [] (a ∷ b ∷ []) drop_before_constant }
    ensures instance { IsProtocolInstance R.drop drop_before_constant.left drop_before_constant.right }
    ensures equal { AreEqual [] (a ∷ b ∷ []) drop_before_constant }
    ensures written { HaveCount hole 0 ((a, one) ∷ (b, zero_bit) ∷ []) 1 drop_before_constant }
{}

/// `drop`: a channel that the first assignment reads in an arm alone, which is never taken, and the
/// other one on every way.
pub fn drop_of_a_read_in_an_arm()
    ensures typed { HaveInterface (m ∷ []) (a ∷ b ∷ []) drop_of_arm }
    ensures instance { IsProtocolInstance R.drop drop_of_arm.left drop_of_arm.right }
    ensures equal { AreEqual (m ∷ []) (a ∷ b ∷ []) drop_of_arm }
{}

/// `mask`: a fair bit is masked by an input, on which a context writes what comes of that bit. Equal
/// in every context, the two are so in this one: they are stuck on both tapes.
pub fn mask_with_an_output_fed_back()
    ensures typed { HaveInterface (m ∷ []) (c ∷ []) mask_of_input }
    ensures there { term_at (protocol_term mask_of_input.left) (0 ∷ 1 ∷ []) ≡ Some (reaction_term coin_read) }
    ensures replaced { term_with (protocol_term mask_of_input.left) (0 ∷ 1 ∷ []) (reaction_term coin_masked) ≡
        protocol_term mask_of_input.right }
    ensures instance { IsReactionInstance [] (R.mask (variable 1)) coin_read coin_masked }
    ensures equal { AreEqual (m ∷ []) (c ∷ []) mask_of_input }
    ensures closes { ClosesInterface (m ∷ []) (c ∷ []) c_fed_into_m }
    ensures stuck { HaveCount c_fed_into_m 1 [] 2 mask_of_input }
{}
