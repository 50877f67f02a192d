//! Worked renamings over the definitions: each is computed. The functions do nothing, and their
//! contracts are the results.

ghost use Rattle.std.specs.Prelude.{◌≡◌, [], ◌∷◌, ◌++◌, Some, None};
ghost use Rattle.ipdl_term.specs.Renaming.{hidden_channels, renamed, renaming_of};
ghost use Rattle.ipdl_term.specs.Typing.{scope_of};
ghost use Rattle.ipdl_embed.specs.Captures.{captured};
ghost use Rattle.ipdl_embed.specs.Completing.{completed, unknown_channels};
ghost use Rattle.ipdl_embed.specs.Fitting.{first_unfit};
ghost use Rattle.ipdl_embed.specs.Pairs.{new_name, old_name};
ghost use Rattle.ipdl_embed.specs.Worked.{a, b, c, x, y, a_to_b_c, a_is_x, c_is_a, copies, copies_of_x, hides_a};

/// A pair gives each free channel of its name the new one, and a hidden channel of that name keeps
/// its own.
pub fn pairs_rename_channels()
    ensures completed { completed a_to_b_c a_is_x ≡ (a, x) ∷ (b, b) ∷ (c, c) ∷ [] }
    ensures free { renamed (renaming_of a_is_x) copies ≡ copies_of_x }
    ensures hidden { renamed (renaming_of a_is_x) hides_a ≡ hides_a }
{}

/// Without pairs each channel keeps its name, and a protocol is its own instance.
pub fn unnamed_channels_keep_their_names()
    ensures completed { completed a_to_b_c [] ≡ (a, a) ∷ (b, b) ∷ (c, c) ∷ [] }
    ensures same { renamed (renaming_of []) copies ≡ copies }
    ensures visible { first_unfit (scope_of (a_to_b_c.inputs ++ a_to_b_c.outputs)) (renaming_of [])
        (a_to_b_c.inputs ++ a_to_b_c.outputs) ≡ None }
{}

/// The new name y is that of a hidden channel of the copies, and x is not. But x is not visible.
pub fn captured_channels_are_told()
    ensures captured { captured ((a, y) ∷ []) (hidden_channels copies) ≡ y ∷ [] }
    ensures free { captured a_is_x (hidden_channels copies) ≡ [] }
    ensures not_visible { first_unfit (scope_of a_to_b_c.outputs) (renaming_of a_is_x)
        (a_to_b_c.outputs ++ a_to_b_c.inputs) ≡ Some 2 }
{}

/// Where c is called a the first channel of that name is a itself. A pair for a channel that is not
/// there is told by that channel.
pub fn channels_that_clash_are_told()
    ensures completed { completed a_to_b_c c_is_a ≡ (a, a) ∷ (b, b) ∷ (c, a) ∷ [] }
    ensures first { old_name (completed a_to_b_c c_is_a) a ≡ Some a }
    ensures second { new_name (completed a_to_b_c c_is_a) c ≡ Some a }
    ensures unknown { unknown_channels a_to_b_c ((b, x) ∷ (y, a) ∷ (x, b) ∷ []) ≡ y ∷ x ∷ [] }
{}
