//! What the rules make of variables: what stands for each, by number, and what a reaction then does.

ghost use Rattle.std.specs.Prelude.{◌≡◌, ◌-◌, ◌∷◌, Bool, false, List, [], if◌then◌else◌, nat_eq, nat_lt, suc, ℕ};
ghost use Rattle.ipdl_term.specs.Interpretations.{Interpretation, cut_value, evaluation};
ghost use Rattle.ipdl_term.specs.Reactions.{reaction_outcome};
ghost use Rattle.ipdl_term.specs.Rewriting.{exchanged_reaction, joined_reaction, lowered_reaction, replaced_reaction};
ghost use Rattle.ipdl_term.specs.Terms.{Expression, Reaction, Value, literal, segment, variable};
ghost use Rattle.ipdl_term.specs.Valuations.{Valuation};
ghost use Rattle.ipdl_term.specs.Variables.{lifted_expression, put_expression, reaction_uses};

/// Lowered, under d binders: of the variables but number d, those behind it go down by one.
pub fn variables_lowered()
    ensures { (d n : ℕ) → nat_eq n d ≡ false →
        put_expression d (variable n) (literal []) ≡ variable (if nat_lt n d then n else (n - 1)) }
{}

/// Exchanged, under d binders: the variables d and d + 1, and no other one.
pub fn variables_exchanged()
    ensures { (d n : ℕ) →
        put_expression d (lifted_expression (variable n) (suc (suc d)) 1) (variable 1) ≡
        (if nat_eq n d then variable (suc d) else
        (if nat_eq n (suc d) then variable d else variable n)) }
{}

/// Replaced, under d binders: variable d by the expression, lifted past them, and no other one.
pub fn variables_replaced()
    ensures { (d n : ℕ) (e : Expression) →
        put_expression d (lifted_expression (variable n) (suc d) 1) e ≡
        (if nat_eq n d then lifted_expression e 0 d else variable n) }
{}

/// Joined, under d binders: for the variables d and d + 1 the two cuts of variable d, and those
/// behind go down by one.
pub fn variables_joined()
    ensures { (v w d n : ℕ) →
        let lifted = lifted_expression (variable n) (suc (suc d)) 1 in
        let with_second = put_expression d lifted (segment v w (variable 1)) in
        put_expression d with_second (segment 0 v (variable 0)) ≡
        (if nat_eq n d then segment v w (variable d) else
        (if nat_eq n (suc d) then segment 0 v (variable d) else
        (if nat_lt n d then variable n else variable (n - 1)))) }
{}

/// A lowered reaction does what the reaction does at any value of the variable that it has not.
pub fn outcome_of_lowered()
    ensures { (J : Interpretation) (env : List Value) (u : Value) (r : Reaction)
        (inputs : Valuation) (tape : List Bool) → reaction_uses r 0 ≡ false →
        reaction_outcome J (lowered_reaction r) env inputs tape ≡
        reaction_outcome J r (u ∷ env) inputs tape }
{}

/// A reaction with its variables exchanged does what the reaction does at exchanged values.
pub fn outcome_of_exchanged()
    ensures { (J : Interpretation) (env : List Value) (u v : Value) (r : Reaction)
        (inputs : Valuation) (tape : List Bool) →
        reaction_outcome J (exchanged_reaction r) (u ∷ v ∷ env) inputs tape ≡
        reaction_outcome J r (v ∷ u ∷ env) inputs tape }
{}

/// A reaction with variable 0 replaced does what the reaction does at the value of the expression.
pub fn outcome_of_replaced()
    ensures { (J : Interpretation) (env : List Value) (u : Value) (r : Reaction) (e : Expression)
        (inputs : Valuation) (tape : List Bool) →
        reaction_outcome J (replaced_reaction r e) (u ∷ env) inputs tape ≡
        reaction_outcome J r (evaluation J (u ∷ env) e ∷ env) inputs tape }
{}

/// A reaction with two variables joined does what the reaction does at the two cuts of the one.
pub fn outcome_of_joined()
    ensures { (J : Interpretation) (env : List Value) (u : Value) (v w : ℕ) (r : Reaction)
        (inputs : Valuation) (tape : List Bool) →
        reaction_outcome J (joined_reaction v w r) (u ∷ env) inputs tape ≡
        reaction_outcome J r (cut_value v w u ∷ cut_value 0 v u ∷ env) inputs tape }
{}
