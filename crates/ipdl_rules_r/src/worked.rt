//! Worked rows: each answer is computed from the definitions. The functions do nothing, and their
//! contracts are the rows. Variables are numbers of binders, the innermost first.

ghost use Rattle.std.specs.Prelude.{◌≡◌, [], ◌∷◌, false, true};
ghost use Rattle.ipdl_rules_r.specs.Matching.{answer, failing, gives, other_shape};
ghost use Rattle.ipdl_rules_r.specs.Worked.{coin, pair, read_c, symbols, triple, v0, v1, v2, v3};
ghost use Rattle.ipdl_term.specs.Rules as R;
ghost use Rattle.ipdl_term.specs.Terms.{application, binding, branching, exclusive, flipping, literal, negation, returning, segment};

/// Each rule once, at a left side that meets what it asks.
pub fn each_rule_once()
    ensures beta { answer symbols R.beta (binding 1 (returning v1) (binding 2 read_c (triple v1 v0 v2))) ≡
        gives (binding 2 read_c (triple v2 v0 v1)) }
    ensures eta { answer symbols R.eta (binding 1 read_c (returning v0)) ≡ gives read_c }
    ensures assoc { answer symbols R.assoc (binding 3 (binding 1 read_c (returning v1)) (pair v0 v1)) ≡
        gives (binding 1 read_c (binding 3 (returning v1) (pair v0 v2))) }
    ensures swap { answer symbols R.swap (binding 1 (returning v0) (binding 2 (returning v2) (triple v0 v1 v2))) ≡
        gives (binding 2 (returning v1) (binding 1 (returning v1) (triple v1 v0 v2))) }
    ensures dropr { answer symbols R.dropr (binding 1 coin (returning v1)) ≡ gives (returning v0) }
    ensures again { answer symbols R.again (binding 1 read_c (binding 1 read_c (triple v0 v1 v2))) ≡
        gives (binding 1 read_c (triple v0 v0 v1)) }
    ensures iftrue { answer symbols R.iftrue (branching (literal (true ∷ [])) read_c coin) ≡ gives read_c }
    ensures iffalse { answer symbols R.iffalse (branching (literal (false ∷ [])) read_c coin) ≡ gives coin }
    ensures ifsame { answer symbols R.ifsame (branching v0 read_c read_c) ≡ gives read_c }
    ensures ifbind { answer symbols R.ifbind (binding 1 (branching v0 read_c coin) (pair v0 v1)) ≡
        gives (branching v0 (binding 1 read_c (pair v0 v1)) (binding 1 coin (pair v0 v1))) }
    ensures mask { answer symbols (R.mask v2) (binding 1 coin (binding 1 read_c (triple v0 v1 v2))) ≡
        gives (binding 1 coin (binding 1 read_c (triple v0 (exclusive v1 v3) v2))) }
    ensures perm { answer symbols (R.perm 0) (binding 1 coin (pair v0 v1)) ≡
        gives (binding 1 coin (pair (application 0 v0) v1)) }
    ensures join { answer symbols R.join (binding 3 (flipping 3) (binding 5 (flipping 5) (triple v1 v0 v2))) ≡
        gives (binding 8 (flipping 8) (triple (segment 0 3 v0) (segment 3 5 v0) v1)) }
    ensures flip0 { answer symbols R.flip0 (flipping 0) ≡ gives (returning (literal [])) }
{}

/// Side conditions that fail: a value that is used, a `read` that would be left out, another width,
/// another part, a `flip`, arms that differ, a mask that has the flip's own variable, a symbol that
/// is no table of the width, a table that repeats a value, and 129 bits.
pub fn failing_sides()
    ensures swap { answer symbols R.swap (binding 1 read_c (binding 1 (returning v0) (returning v0))) ≡ failing 1 }
    ensures dropr_of_a_used_value { answer symbols R.dropr (binding 1 coin (returning v0)) ≡ failing 1 }
    ensures dropr_of_a_read { answer symbols R.dropr (binding 1 read_c (returning v1)) ≡ failing 2 }
    ensures again_of_a_used_value { answer symbols R.again (binding 1 read_c (binding 1 (returning v0) (pair v0 v1))) ≡
        failing 1 }
    ensures again_at_another_width { answer symbols R.again (binding 1 read_c (binding 2 read_c (pair v0 v1))) ≡ failing 2 }
    ensures again_of_another_part { answer symbols R.again (binding 1 (returning v0) (binding 1 (returning v2) (pair v0 v1))) ≡
        failing 2 }
    ensures again_of_a_flip { answer symbols R.again (binding 1 coin (binding 1 coin (pair v0 v1))) ≡ failing 3 }
    ensures ifsame { answer symbols R.ifsame (branching v0 read_c coin) ≡ failing 1 }
    ensures mask { answer symbols (R.mask (negation v0)) (binding 1 coin (returning v0)) ≡ failing 1 }
    ensures perm_of_no_table { answer symbols (R.perm 2) (binding 1 coin (returning v0)) ≡ failing 1 }
    ensures perm_of_no_symbol { answer symbols (R.perm 3) (binding 1 coin (returning v0)) ≡ failing 1 }
    ensures perm_at_another_width { answer symbols (R.perm 0) (binding 2 (flipping 2) (returning v0)) ≡ failing 1 }
    ensures perm_that_repeats { answer symbols (R.perm 1) (binding 1 coin (returning v0)) ≡ failing 2 }
    ensures join { answer symbols R.join (binding 128 (flipping 128) (binding 1 coin (returning v0))) ≡ failing 1 }
{}

/// Reactions of other shapes, two numbers that the shape has as one, and a rule that is for
/// protocols.
pub fn other_shapes()
    ensures beta { answer symbols R.beta (binding 1 read_c (returning v0)) ≡ other_shape }
    ensures eta { answer symbols R.eta (binding 1 read_c (returning v1)) ≡ other_shape }
    ensures iftrue { answer symbols R.iftrue (branching (literal (false ∷ [])) read_c coin) ≡ other_shape }
    ensures mask { answer symbols (R.mask v1) (binding 1 read_c (returning v0)) ≡ other_shape }
    ensures mask_of_two_widths { answer symbols (R.mask v1) (binding 1 (flipping 2) (returning v0)) ≡ other_shape }
    ensures join { answer symbols R.join (binding 1 coin read_c) ≡ other_shape }
    ensures flip0 { answer symbols R.flip0 coin ≡ other_shape }
    ensures of_protocols { answer symbols R.comm (flipping 0) ≡ other_shape }
{}
