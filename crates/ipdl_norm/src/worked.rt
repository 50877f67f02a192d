//! Worked rows: each normal form is computed from the definitions. The functions do nothing, and
//! their contracts are the rows. Variables are numbers of binders, the innermost first.

ghost use Rattle.std.specs.Prelude.{◌≡◌, Some, None};
ghost use Rattle.ipdl_norm.specs.Repeated.{first_repeated_name};
ghost use Rattle.ipdl_norm.specs.Shaped.{shaped};
ghost use Rattle.ipdl_norm.specs.Tidied.{tidied};
ghost use Rattle.ipdl_norm.specs.Worked.{a, b, c, coin, pair, returned_zero, tower, two_named_c, v0, v1, v2};
ghost use Rattle.ipdl_term.specs.Terms.{assignment, binding, branching, hiding, negation, nil, parallel, reading, returning};

/// A variable that is returned at once, a value that is named, a `bind` in a `bind`, one that is
/// passed over with its width, the arms of an `if`, and a value of 2 ^ 60 nodes that is left out.
pub fn tidy_forms()
    ensures returned { tidied (binding 1 (reading c) (returning v0)) ≡ reading c }
    ensures value { tidied (binding 1 (returning v1) (binding 2 (reading c) (pair v1 v0))) ≡
        binding 2 (reading c) (pair v2 v0) }
    ensures nested { tidied (binding 3 (binding 1 (reading c) (returning (negation v1))) (pair v0 v1)) ≡
        binding 1 (reading c) (pair (negation v1) v1) }
    ensures passed { tidied (binding 3 (binding 1 (reading c) (returning v0)) (pair v0 v1)) ≡
        binding 3 (reading c) (pair v0 v1) }
    ensures arms { tidied (branching v0 (binding 1 coin (returning v0)) (binding 1 (returning v1) (returning v0))) ≡
        branching v0 coin (returning v1) }
    ensures left_out { tidied (binding 1 (tower 60) returned_zero) ≡ returned_zero }
{}

/// Hidden channels and assignments out of order, two assignments of one channel, a single
/// assignment, and none.
pub fn shapes()
    ensures ordered { shaped (parallel (hiding c 1 (assignment c coin)) (hiding a 2 (parallel (assignment b (reading a)) (assignment a (reading c))))) ≡
        hiding a 2 (hiding c 1 (parallel (assignment a (reading c)) (parallel (assignment b (reading a)) (assignment c coin)))) }
    ensures of_one_name { shaped (parallel (parallel (assignment b coin) (assignment a (reading b))) (assignment b returned_zero)) ≡
        parallel (assignment a (reading b)) (parallel (assignment b coin) (assignment b returned_zero)) }
    ensures single { shaped (parallel nil (hiding a 1 (assignment a coin))) ≡ hiding a 1 (assignment a coin) }
    ensures none { shaped (parallel nil nil) ≡ nil }
{}

/// A hidden channel that has the name of a free one, two of one name, and different names.
pub fn repeated_names()
    ensures free { first_repeated_name two_named_c ≡ Some c }
    ensures earlier { first_repeated_name (parallel (hiding b 1 (assignment b coin)) (hiding b 2 nil)) ≡ Some b }
    ensures different { first_repeated_name (parallel (hiding b 1 (assignment b coin)) (hiding c 2 nil)) ≡ None }
{}
