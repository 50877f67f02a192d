//! Worked networks over the definitions: each value is computed. The functions do nothing, and their
//! contracts are the values.

ghost use Rattle.std.specs.Prelude.{◌≡◌, true, false, [], ◌∷◌, Some, None, map};
ghost use Rattle.ipdl_mean.specs.Worked.{a, b, s, flipped, hidden};
ghost use Rattle.ipdl_term.specs.Networks.{assignment_count, flat_valuation};
ghost use Rattle.ipdl_term.specs.Protocols.{coins, protocol_valuation};
ghost use Rattle.ipdl_term.specs.Valuations.{nothing};

/// A flip, its negation and a channel that waits for itself: one coin, so a second bit makes no
/// difference, and without a bit nothing is written.
pub fn a_flip_and_its_negation()
    ensures count { assignment_count flipped ≡ 3 }
    ensures coins { coins flipped ≡ 1 }
    ensures no_bit { map (protocol_valuation [] flipped [] nothing) (a ∷ b ∷ s ∷ [])
        ≡ None ∷ None ∷ None ∷ [] }
    ensures one_bit { map (protocol_valuation [] flipped (true ∷ []) nothing) (a ∷ b ∷ s ∷ [])
        ≡ Some (true ∷ []) ∷ Some (false ∷ []) ∷ None ∷ [] }
    ensures two_bits { map (protocol_valuation [] flipped (false ∷ true ∷ []) nothing) (s ∷ b ∷ a ∷ [])
        ≡ None ∷ Some (true ∷ []) ∷ Some (false ∷ []) ∷ [] }
    ensures flat { map (flat_valuation [] flipped (true ∷ [])) (a ∷ b ∷ s ∷ [])
        ≡ Some (true ∷ []) ∷ Some (false ∷ []) ∷ None ∷ [] }
{}

/// A hidden channel that has the name of an output is another one: what stands around it reads the
/// hidden one.
pub fn a_hidden_channel_of_an_outputs_name()
    ensures nested { map (protocol_valuation [] hidden [] nothing) (a ∷ b ∷ [])
        ≡ Some (true ∷ []) ∷ Some (false ∷ []) ∷ [] }
    ensures flat { map (flat_valuation [] hidden []) (a ∷ b ∷ [])
        ≡ Some (true ∷ []) ∷ Some (false ∷ []) ∷ [] }
{}
