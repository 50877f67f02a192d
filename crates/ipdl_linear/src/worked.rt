//! Worked pairs over the definitions: each answer is computed. The functions do nothing, and their
//! contracts are the answers.

ghost use Rattle.std.specs.Prelude.{◌≡◌};
ghost use Rattle.ipdl_linear.specs.Likeness.{likeness_of, weight_of};
ghost use Rattle.ipdl_linear.specs.Worked.{of_bits, of_two_bits, x, y, z};
ghost use Rattle.ipdl_linear.specs.declared.likeness.Likeness.TheVariants.{Same, Differ};
ghost use Rattle.ipdl_term.specs.Terms.{conjunction, equality, exclusive, negation, segment, selection};

/// A product has its factors in either order.
pub fn exchanged_factors()
    ensures same { likeness_of (of_bits (conjunction x y) (conjunction y x)) ≡ Same }
    ensures within { likeness_of (of_bits (exclusive z (conjunction x y)) (exclusive (conjunction y x) z)) ≡ Same }
    ensures weight { weight_of (of_bits (conjunction x y) (conjunction y x)) ≡ 6 }
{}

/// A bit and itself cancel, and are not that bit.
pub fn a_bit_twice()
    ensures differ { likeness_of (of_bits (exclusive x x) x) ≡ Differ 0 }
    ensures same { likeness_of (of_bits (exclusive x (exclusive y x)) y) ≡ Same }
{}

/// A selection between one form is that form, and else its arms have an order.
pub fn selections()
    ensures same { likeness_of (of_bits (selection x y y) y) ≡ Same }
    ensures written_out { likeness_of (of_bits (selection x y z) (exclusive (conjunction (exclusive z y) x) z)) ≡ Same }
    ensures nested { likeness_of (of_bits (selection x (selection y z z) z) z) ≡ Same }
    ensures differ { likeness_of (of_bits (selection x y z) (selection x z y)) ≡ Differ 0 }
{}

/// Two bits are equal where their sum is 0.
pub fn a_test_of_equality()
    ensures same { likeness_of (of_bits (equality x y) (negation (exclusive x y))) ≡ Same }
{}

/// Where all bits agree that both have, the smaller width is told.
pub fn another_width()
    ensures differ { likeness_of (of_two_bits z (segment 0 1 z)) ≡ Differ 1 }
    ensures same { likeness_of (of_two_bits z (segment 0 2 z)) ≡ Same }
{}
