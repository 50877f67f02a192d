//! Worked rows, computed from the definitions. The functions do nothing, and their contracts are the
//! rows.

ghost use Rattle.std.specs.Prelude.{◌≡◌, [], ◌∷◌, None, Some, codes, true};
ghost use Rattle.ipdl_base.specs.declared.limit.Limit.TheVariants.{Chain as ChainLimit};
ghost use Rattle.ipdl_chain.specs.Chains.{by_assumption, by_rule, by_theorem};
ghost use Rattle.ipdl_rules_r.specs.TruthTests.{differ_at};
ghost use Rattle.ipdl_script.specs.Scripts.{chain_of_scripts, count_after, first_wrong, left_side, links_of_step, wrong_ends, wrong_step};
ghost use Rattle.ipdl_script.specs.Steps.{after_step, captured, ill_typed, no_channel, no_match, no_place, no_port, no_variable, not_injective, not_result, over, side_fails, step_refusal, untrue};
ghost use Rattle.ipdl_script.specs.Worked.{add_nothing, around_it, behind, below_a_flip, beside_its_name, c, coin, copied, d, drop_nothing, e, exchange, exchange_back, exchanged, mask_with_one, of_an_unbound_variable, of_another, one_bit, one_known, see_the_test, see_two_tests, tested, two_known, two_outputs, use_behind, zero_bit};
ghost use Rattle.ipdl_term.specs.Rules as R;
ghost use Rattle.ipdl_term.specs.Steps.{invoke, lr, plain, rl};
ghost use Rattle.ipdl_term.specs.Terms.{exclusive, flipping, nil, parallel, returning, variable};
ghost use Rattle.ipdl_typing.specs.Checks.{missing};

/// One exchange.
pub fn one_exchange()
    ensures stands { first_wrong two_outputs 0 (exchanged (exchange ∷ []) []) ≡ None }
    ensures chain { (chain_of_scripts two_outputs (exchanged (exchange ∷ []) [])).links ≡
        record { mark = by_rule lr (codes "comm") []; term = parallel copied coin } ∷ [] }
{}

/// A second step whose path leads below a `flip`.
pub fn place_below_a_flip()
    ensures { first_wrong two_outputs 0 (exchanged (exchange ∷ below_a_flip ∷ []) [])
        ≡ Some (wrong_step left_side 2 no_place) }
{}

/// A step back by `unit`, whose term is written out, and one forward again.
pub fn back_and_forward()
    ensures stands { first_wrong two_outputs 0 (exchanged (add_nothing ∷ drop_nothing ∷ exchange ∷ []) []) ≡ None }
    ensures chain { (chain_of_scripts two_outputs (exchanged (add_nothing ∷ drop_nothing ∷ exchange ∷ []) [])).links ≡
        record { mark = by_rule rl (codes "unit") []; term = parallel (parallel coin copied) nil } ∷
        record { mark = by_rule lr (codes "unit") []; term = parallel coin copied } ∷
        record { mark = by_rule lr (codes "comm") []; term = parallel copied coin } ∷ [] }
{}

/// Two scripts that meet in the middle: the mark of the right one is turned.
pub fn meeting_in_the_middle()
    ensures stands { first_wrong two_outputs 0 (exchanged (add_nothing ∷ []) (exchange ∷ add_nothing ∷ [])) ≡ None }
    ensures chain { (chain_of_scripts two_outputs (exchanged (add_nothing ∷ []) (exchange ∷ add_nothing ∷ []))).links ≡
        record { mark = by_rule rl (codes "unit") []; term = parallel (parallel coin copied) nil } ∷
        record { mark = by_rule lr (codes "unit") []; term = parallel coin copied } ∷
        record { mark = by_rule rl (codes "comm") []; term = parallel copied coin } ∷ [] }
{}

/// Scripts that end in two terms, which differ first in the channel of the left part.
pub fn ends_that_differ()
    ensures { first_wrong two_outputs 0 (exchanged [] []) ≡ Some (wrong_ends (0 ∷ [])) }
{}

/// A mask at a reaction: the test and the arm have it.
pub fn masked_coin()
    ensures stands { step_refusal two_outputs (tested (variable 0) (variable 0)) mask_with_one ≡ None }
    ensures after { after_step two_outputs (tested (variable 0) (variable 0)) mask_with_one ≡
        tested (exclusive (variable 0) one_bit) (exclusive (variable 0) one_bit) }
{}

/// An expression in an arm of an `if`. `#1` is the variable that is tested, since that is met there;
/// `#0` is not, first where the variable is `#1`; and two tests are not there.
pub fn table_in_an_arm()
    ensures stands { step_refusal two_outputs (tested (variable 0) one_bit) see_the_test ≡ None }
    ensures after { after_step two_outputs (tested (variable 0) one_bit) see_the_test ≡ tested (variable 0) (variable 0) }
    ensures differs { step_refusal two_outputs (tested (variable 0) zero_bit) see_the_test
        ≡ Some (untrue (differ_at ((0, true ∷ []) ∷ []))) }
    ensures too_many { step_refusal two_outputs (tested (variable 0) one_bit) see_two_tests ≡ Some (side_fails 1) }
{}

/// Each cause but the last once, in the order of the tests, and the limit on the neighbours of a document.
pub fn each_cause()
    ensures place { step_refusal two_outputs (parallel coin copied) below_a_flip ≡ Some no_place }
    ensures variable { step_refusal two_outputs (parallel coin copied) of_an_unbound_variable ≡ Some (no_variable 0) }
    ensures kind { step_refusal two_outputs (parallel coin copied) (plain (0 ∷ 0 ∷ []) R.comm) ≡ Some no_match }
    ensures shape { step_refusal two_outputs (parallel coin copied) (plain (0 ∷ []) R.comm) ≡ Some no_match }
    ensures side { step_refusal two_outputs beside_its_name (plain [] R.scope) ≡ Some (side_fails 1) }
    ensures other { step_refusal two_outputs (parallel coin copied) of_another ≡ Some not_result }
    ensures untyped { step_refusal two_outputs (parallel coin nil) drop_nothing
        ≡ Some (ill_typed (record { path = []; cause = missing d })) }
    ensures chain { first_wrong two_outputs 8_192 (exchanged (exchange ∷ []) [])
        ≡ Some (wrong_step left_side 1 (over ChainLimit)) }
{}

/// An assumption used below a `new`, for the hidden channel. What is around the place is in its mark.
pub fn assumption_below_a_new()
    ensures stands { step_refusal one_known (behind (flipping 1)) (use_behind (codes "fixing") lr ((c, e) ∷ [])) ≡ None }
    ensures after { after_step one_known (behind (flipping 1)) (use_behind (codes "fixing") lr ((c, e) ∷ []))
        ≡ behind (returning zero_bit) }
    ensures links { links_of_step one_known (behind (flipping 1)) (use_behind (codes "fixing") lr ((c, e) ∷ [])) (behind (returning zero_bit)) ≡
        record { mark = by_assumption lr (codes "fixing") (0 ∷ 0 ∷ []) ((c, e) ∷ []) around_it; term = behind (returning zero_bit) } ∷ [] }
{}

/// A theorem without assumptions, used from its right side: one neighbour, each channel with its own
/// name.
pub fn theorem_used_back()
    ensures stands { first_wrong two_known 0 (exchanged (exchange ∷ exchange_back ∷ exchange ∷ []) []) ≡ None }
    ensures links { links_of_step two_known (parallel copied coin) exchange_back (parallel coin copied) ≡
        record { mark = by_theorem rl (codes "exchange") [] ((c, c) ∷ (d, d) ∷ []); term = parallel coin copied } ∷ [] }
{}

/// A theorem that rests on an assumption twice: both neighbours are there, and count.
pub fn two_assumptions_by_a_theorem()
    ensures links { links_of_step one_known (behind (flipping 1)) (use_behind (codes "again") rl ((c, e) ∷ [])) (behind (flipping 1)) ≡
        record { mark = by_assumption lr (codes "fixing") (0 ∷ 0 ∷ []) ((c, e) ∷ []) around_it; term = behind (returning zero_bit) } ∷
        record { mark = by_assumption rl (codes "fixing") (0 ∷ 0 ∷ []) ((c, e) ∷ []) around_it; term = behind (flipping 1) } ∷ [] }
    ensures count { count_after one_known 8_191 (behind (flipping 1)) (use_behind (codes "again") rl ((c, e) ∷ [])) (behind (flipping 1)) ≡ 8_193 }
{}

/// Each cause of a use once, in the order of the tests.
pub fn each_cause_of_a_use()
    ensures place { step_refusal one_known coin (use_behind (codes "fixing") lr []) ≡ Some no_place }
    ensures name { step_refusal one_known (behind (flipping 1)) (use_behind (codes "none") lr []) ≡ Some no_match }
    ensures channel { step_refusal one_known (behind (flipping 1)) (use_behind (codes "fixing") lr ((d, e) ∷ [])) ≡ Some (no_channel d) }
    ensures clash { step_refusal two_known (parallel copied coin) (invoke [] (codes "exchange") rl ((c, d) ∷ []))
        ≡ Some (not_injective c d) }
    ensures capture { step_refusal one_known (behind (flipping 1)) (use_behind (codes "fetching") lr ((c, e) ∷ [])) ≡ Some (captured e) }
    ensures side { step_refusal one_known (behind (flipping 1)) (use_behind (codes "fixing") rl ((c, e) ∷ [])) ≡ Some no_match }
    ensures port { step_refusal one_known coin (invoke [] (codes "fixing") lr []) ≡ Some (no_port c) }
{}
