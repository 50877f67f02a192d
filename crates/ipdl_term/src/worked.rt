//! Worked protocols over the definitions: each count is computed. The functions do nothing, and
//! their contracts are the counts.
ghost use Rattle.std.specs.Prelude.{◌≡◌, [], ◌∷◌};
ghost use Rattle.ipdl_term.specs.Counts.{history_count};
ghost use Rattle.ipdl_term.specs.Worked.{a, b, c, one, zero_bit, copy_not, negated, padded, cancelled, waiting, shadowed, written_alone};

/// A copy of the negation of a fair bit: one tape for each of its two histories, twice as many
/// with one bit more, and never a value on the channel that waits for itself.
pub fn counts_of_a_negated_bit()
    ensures on_zero { history_count [] copy_not 1 (negated zero_bit one) ≡ 1 }
    ensures on_one { history_count [] copy_not 1 (negated one zero_bit) ≡ 1 }
    ensures more_bits { history_count [] copy_not 3 (negated one zero_bit) ≡ 4 }
    ensures never_equal { history_count [] copy_not 1 (negated one one) ≡ 0 }
    ensures nothing_else { history_count [] copy_not 1 [] ≡ 0 }
{}

/// A constant that is padded by a fair bit is each of the two values once.
pub fn counts_of_a_pad()
    ensures zero_bit { history_count [] padded 1 (written_alone c zero_bit) ≡ 1 }
    ensures one { history_count [] padded 1 (written_alone c one) ≡ 1 }
{}

/// A bit and itself cancel on both tapes.
pub fn counts_of_a_cancelled_bit()
    ensures zero_bit { history_count [] cancelled 1 (written_alone c zero_bit) ≡ 2 }
    ensures one { history_count [] cancelled 1 (written_alone c one) ≡ 0 }
{}

/// Channels that wait for each other are never written.
pub fn counts_of_waiting_channels()
    ensures { history_count [] waiting 0 [] ≡ 1 }
{}

/// A hidden channel is another one than that of its name outside.
pub fn counts_of_a_shadowed_channel()
    ensures { history_count [] shadowed 0 ((a, one) ∷ (b, zero_bit) ∷ (c, one) ∷ []) ≡ 1 }
{}
