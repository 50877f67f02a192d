//! Rules at a reaction. Where the two sides of a rule do the same on every tape, its law says so:
//! `RULE_is_the_same`. Else it says that they have the same totals, so that each value is as likely:
//! `RULE_is_as_likely`. Each law holds for every interpretation, value of the variables and inputs,
//! under what it asks.

ghost use Rattle.std.specs.Prelude.{◌≡◌, ◌+◌, ◌^◌, ◌∷◌, false, List, [], length, true, ℕ};
ghost use Rattle.ipdl_rules_r.specs.SameTotals.{DoTheSame, HaveSameTotals};
ghost use Rattle.ipdl_rules_r.specs.Tables.{AreDifferent, IsTableOn};
ghost use Rattle.ipdl_term.specs.Counts.{total};
ghost use Rattle.ipdl_term.specs.Interpretations.{Interpretation, Interprets, Signature};
ghost use Rattle.ipdl_term.specs.Rewriting.{exchanged_reaction, joined_reaction, lowered_reaction, replaced_reaction};
ghost use Rattle.ipdl_term.specs.Surroundings.{FitWidths};
ghost use Rattle.ipdl_term.specs.Terms.{Expression, Reaction, Value, application, binding, branching, exclusive, flipping, literal, returning, variable};
ghost use Rattle.ipdl_term.specs.Typing.{GivesWidth, Scope};
ghost use Rattle.ipdl_term.specs.Valuations.{Valuation};
ghost use Rattle.ipdl_term.specs.Variables.{expression_uses, has_flip, has_read, lifted_reaction, put_reaction, reaction_uses};

/// Reactions that do the same on every tape have the same totals.
pub fn same_is_as_likely()
    ensures { (J : Interpretation) (env : List Value) (inputs : Valuation) (r s : Reaction) →
        DoTheSame J env inputs r s → HaveSameTotals J env inputs r s }
{}

/// A returned expression may be put for the variable of its value.
pub fn beta_is_the_same()
    ensures { (J : Interpretation) (env : List Value) (inputs : Valuation)
        (w : ℕ) (e : Expression) (s : Reaction) →
        DoTheSame J env inputs (binding w (returning e) s) (put_reaction 0 s e) }
{}

/// A value need not be named to be returned at once.
pub fn eta_is_the_same()
    ensures { (J : Interpretation) (env : List Value) (inputs : Valuation) (w : ℕ) (r : Reaction) →
        DoTheSame J env inputs (binding w r (returning (variable 0))) r }
{}

/// Of a binding that is the first part of a binding, the first part may come first alone.
pub fn assoc_is_the_same()
    ensures { (J : Interpretation) (env : List Value) (inputs : Valuation) (v w : ℕ)
        (r s t : Reaction) →
        DoTheSame J env inputs (binding w (binding v r s) t)
        (binding v r (binding w s (lifted_reaction t 1 1))) }
{}

/// A part that takes no bits of the tape gives its value again.
pub fn again_is_the_same()
    ensures { (J : Interpretation) (env : List Value) (inputs : Valuation) (v w : ℕ)
        (r q t : Reaction) → reaction_uses q 0 ≡ false → lowered_reaction q ≡ r →
        has_flip r ≡ false →
        DoTheSame J env inputs (binding v r (binding w q t))
        (binding v r (put_reaction 0 t (variable 0))) }
{}

/// A test that is 1 leads to the first arm.
pub fn iftrue_is_the_same()
    ensures { (J : Interpretation) (env : List Value) (inputs : Valuation) (r s : Reaction) →
        DoTheSame J env inputs (branching (literal (true ∷ [])) r s) r }
{}

/// A test that is 0 leads to the second arm.
pub fn iffalse_is_the_same()
    ensures { (J : Interpretation) (env : List Value) (inputs : Valuation) (r s : Reaction) →
        DoTheSame J env inputs (branching (literal (false ∷ [])) r s) s }
{}

/// Between arms that are the same no test is needed.
pub fn ifsame_is_the_same()
    ensures { (J : Interpretation) (env : List Value) (inputs : Valuation)
        (e : Expression) (r : Reaction) → DoTheSame J env inputs (branching e r r) r }
{}

/// What follows a test may follow in each arm.
pub fn ifbind_is_the_same()
    ensures { (J : Interpretation) (env : List Value) (inputs : Valuation)
        (w : ℕ) (e : Expression) (r s t : Reaction) →
        DoTheSame J env inputs (binding w (branching e r s) t)
        (branching e (binding w r t) (binding w s t)) }
{}

/// A flip of no bits is the empty literal.
pub fn flip0_is_the_same()
    ensures { (J : Interpretation) (env : List Value) (inputs : Valuation) →
        DoTheSame J env inputs (flipping 0) (returning (literal [])) }
{}

/// A part that reads nothing, and whose value is not used, may be left out.
pub fn dropr_is_as_likely()
    ensures { (J : Interpretation) (env : List Value) (inputs : Valuation) (w : ℕ)
        (r s : Reaction) → reaction_uses s 0 ≡ false → has_read r ≡ false →
        HaveSameTotals J env inputs (binding w r s) (lowered_reaction s) }
{}

/// Two parts may change places if the second does not use the value of the first.
pub fn swap_is_as_likely()
    ensures { (J : Interpretation) (env : List Value) (inputs : Valuation) (v w : ℕ)
        (r s t : Reaction) → reaction_uses s 0 ≡ false →
        let second_last = binding v (lifted_reaction r 0 1) (exchanged_reaction t) in
        HaveSameTotals J env inputs (binding v r (binding w s t))
        (binding w (lowered_reaction s) second_last) }
{}

/// Two flips one after the other are one, of which two cuts stand for their values.
pub fn join_is_as_likely()
    ensures { (J : Interpretation) (env : List Value) (inputs : Valuation) (v w : ℕ)
        (s : Reaction) →
        HaveSameTotals J env inputs (binding v (flipping v) (binding w (flipping w) s))
        (binding (v + w) (flipping (v + w)) (joined_reaction v w s)) }
{}

/// A flip may be masked by an expression that does not use it, where the result is typed.
pub fn mask_is_as_likely()
    ensures { (sig : Signature) (J : Interpretation) → Interprets sig J →
        (scope : Scope) (widths : List ℕ) (env : List Value) (inputs : Valuation) →
        FitWidths widths env → (w : ℕ) (s : Reaction) (e : Expression) (v : ℕ) →
        expression_uses e 0 ≡ false →
        let masked = binding w (flipping w) (replaced_reaction s (exclusive (variable 0) e)) in
        GivesWidth sig scope widths masked v →
        HaveSameTotals J env inputs (binding w (flipping w) s) masked }
{}

/// A flip may be mapped by a table from its width to its width that has a value for each argument,
/// all of them different.
pub fn perm_is_as_likely()
    ensures { (sig : Signature) (J : Interpretation) → Interprets sig J →
        (f w : ℕ) (values : List Value) → IsTableOn sig f w values → length values ≡ 2 ^ w →
        AreDifferent values → (env : List Value) (inputs : Valuation) (s : Reaction) →
        let mapped = replaced_reaction s (application f (variable 0)) in
        HaveSameTotals J env inputs (binding w (flipping w) s) (binding w (flipping w) mapped) }
{}

/// A map of the values of a width to values of that width that makes different values of different
/// ones leaves each sum over all of them as it is.
pub fn injective_maps_keep_sums()
    ensures { (w : ℕ) (map_value : Value → Value) →
        ((u : Value) → length u ≡ w → length (map_value u) ≡ w) →
        ((u v : Value) → length u ≡ w → length v ≡ w → map_value u ≡ map_value v → u ≡ v) →
        (g : Value → ℕ) → total w (λ u. g (map_value u)) ≡ total w g }
{}
