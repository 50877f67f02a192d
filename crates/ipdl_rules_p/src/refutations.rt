//! Each side condition that typing alone does not ask is needed: a left side that fails it, and no
//! other, is told apart from what the rule would make of it. The functions do nothing, and their
//! contracts are the refutations.

ghost use Rattle.std.specs.Prelude.{◌≡◌, List, [], ◌∷◌};
ghost use Rattle.ipdl_laws.specs.Alike.{Alike};
ghost use Rattle.ipdl_rules_p.specs.Matching.{answer, failing, gives};
ghost use Rattle.ipdl_rules_p.specs.Refutations.{IsRefutedWithout, absorb_of_an_output, answer_without, diverge_of_an_arm, drop_before_an_arm, drop_of_a_use, fold_of_an_own_read, fold_of_two_reads, rename_to_a_free_name, rename_to_a_hidden_name, scope_of_a_free_channel, subst_of_a_flip, subsume_beside_another, subsume_of_an_arm};
ghost use Rattle.ipdl_term.specs.Channels.{outputs};
ghost use Rattle.ipdl_term.specs.Equality.{Equal};
ghost use Rattle.ipdl_term.specs.Interpretations.{Interpretation, Signature};
ghost use Rattle.ipdl_term.specs.Rules as R;
ghost use Rattle.ipdl_term.specs.Terms.{Channel, Protocol, parallel};
ghost use Rattle.ipdl_term.specs.Typing.{Scope};
ghost use Rattle.ipdl_term.specs.Worked.{a, b, c, k, m};

/// `scope`: a part that reads a channel from outside does not read the hidden one of that name.
pub fn scope_needs_no_free_channel()
    ensures { IsRefutedWithout 1 R.scope (c ∷ []) (a ∷ []) scope_of_a_free_channel }
{}

/// `rename`: a hidden channel that takes a free name captures what reads the channel outside.
pub fn rename_needs_no_free_name()
    ensures { IsRefutedWithout 1 (R.rename k) (k ∷ []) (a ∷ []) rename_to_a_free_name }
{}

/// `rename`: a hidden channel that takes the name of one hidden below is captured there.
pub fn rename_needs_no_hidden_name()
    ensures { IsRefutedWithout 1 (R.rename k) [] (a ∷ []) rename_to_a_hidden_name }
{}

/// `absorb`: without a part that writes there are fewer outputs, so the two are alike in no scope,
/// and at no interface may any part that writes equally be left out.
pub fn absorb_needs_no_output()
    ensures fails { answer R.absorb absorb_of_an_output.left ≡ failing 1 }
    ensures otherwise { answer_without 1 R.absorb absorb_of_an_output.left ≡ gives absorb_of_an_output.right }
    ensures unlike { (J : Interpretation) (scope : Scope) →
        Alike J scope absorb_of_an_output.left absorb_of_an_output.right → ⊥ }
    ensures equal { (sig : Signature) (scope : Scope) (written : List Channel) (p q : Protocol) →
        Equal sig scope written (parallel p q) p → outputs q ≡ [] }
{}

/// `fold`: a second read of the hidden channel is left without it.
pub fn fold_needs_a_lone_read()
    ensures { IsRefutedWithout 1 (R.fold (0 ∷ [])) (c ∷ []) (a ∷ []) fold_of_two_reads }
{}

/// `fold`: a hidden channel that waits for itself is not the one of its name outside.
pub fn fold_needs_no_own_read()
    ensures { IsRefutedWithout 2 (R.fold []) (c ∷ []) (a ∷ []) fold_of_an_own_read }
{}

/// `subst`: a fair bit drawn again is another one.
pub fn subst_needs_no_flip()
    ensures { IsRefutedWithout 1 (R.subst []) [] (a ∷ b ∷ []) subst_of_a_flip }
{}

/// `drop`: a value that is used is missed when it is no longer read.
pub fn drop_needs_an_unused_value()
    ensures { IsRefutedWithout 1 R.drop [] (a ∷ b ∷ []) drop_of_a_use }
{}

/// `drop`: what waits for a channel through the other one need not wait for it without the `read`.
pub fn drop_needs_what_is_read()
    ensures { IsRefutedWithout 2 R.drop (m ∷ []) (a ∷ b ∷ []) drop_before_an_arm }
{}

/// `subsume`: what does not wait for the other assignment need not wait for what that one reads.
pub fn subsume_needs_a_read_of_the_first()
    ensures { IsRefutedWithout 1 (R.subsume m 1) (m ∷ []) (a ∷ b ∷ []) subsume_beside_another }
{}

/// `subsume`: a channel that the other assignment reads on some ways alone need not be waited for.
pub fn subsume_needs_what_the_first_reads()
    ensures { IsRefutedWithout 2 (R.subsume m 1) (m ∷ []) (a ∷ b ∷ []) subsume_of_an_arm }
{}

/// `diverge`: an assignment that reads its own channel on some ways alone may be written on others.
pub fn diverge_needs_an_own_read()
    ensures { IsRefutedWithout 1 R.diverge [] (a ∷ []) diverge_of_an_arm }
{}
