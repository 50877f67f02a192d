//! Laws of expressions, reactions and contexts.

ghost use Rattle.std.specs.Prelude.{◌≡◌, ◌+◌, ◌≤◌, ◌∷◌, ◌++◌, List, ℕ, Bool, true, Some, is_some, length, drop};
ghost use Rattle.ipdl_term.specs.Channels.{has, reads, must_reads};
ghost use Rattle.ipdl_term.specs.Contexts.{nested, plugged};
ghost use Rattle.ipdl_term.specs.Interpretations.{Interpretation, evaluation};
ghost use Rattle.ipdl_term.specs.Reactions.{reaction_coins, reaction_outcome};
ghost use Rattle.ipdl_term.specs.Terms.{Channel, Context, Expression, Protocol, Reaction, Value};
ghost use Rattle.ipdl_term.specs.Valuations.{Valuation};
ghost use Rattle.ipdl_term.specs.Variables.{lifted_expression, lifted_reaction, put_expression, put_reaction};

/// An expression that is put for variable 0 counts as a value of that variable.
pub fn evaluation_of_put()
    ensures { (J : Interpretation) (env : List Value) (b v : Expression) →
        evaluation J env (put_expression 0 b v) ≡ evaluation J (evaluation J env v ∷ env) b }
{}

/// An expression that is put for variable 0 of a reaction counts as a value of that variable.
pub fn outcome_of_put()
    ensures { (J : Interpretation) (env : List Value) (r : Reaction) (v : Expression)
        (inputs : Valuation) (tape : List Bool) →
        reaction_outcome J (put_reaction 0 r v) env inputs tape ≡
        reaction_outcome J r (evaluation J env v ∷ env) inputs tape }
{}

/// An expression whose variables behind the near ones are lifted past extra values has the value
/// that it has without those values.
pub fn evaluation_of_lift()
    ensures { (J : Interpretation) (near extra env : List Value) (e : Expression) →
        evaluation J (near ++ (extra ++ env)) (lifted_expression e (length near) (length extra)) ≡
        evaluation J (near ++ env) e }
{}

/// A reaction whose variables behind the near ones are lifted past extra values does what it does
/// without those values.
pub fn outcome_of_lift()
    ensures { (J : Interpretation) (near extra env : List Value) (r : Reaction)
        (inputs : Valuation) (tape : List Bool) →
        let lifted = lifted_reaction r (length near) (length extra) in
        reaction_outcome J lifted (near ++ (extra ++ env)) inputs tape ≡
        reaction_outcome J r (near ++ env) inputs tape }
{}

/// A reaction that is not stuck has every channel that is read on each way through it.
pub fn must_be_written()
    ensures { (J : Interpretation) (r : Reaction) (env : List Value) (inputs : Valuation)
        (tape : List Bool) (o : Value × List Bool) → reaction_outcome J r env inputs tape ≡ Some o →
        (c : Channel) → has (must_reads r) c ≡ true → is_some (inputs c) ≡ true }
{}

/// A reaction that has every channel that it reads, and a tape as long as its coins, is not stuck.
/// What it leaves is the tape without its first bits, of which it takes its coins at most.
pub fn not_stuck()
    ensures { (J : Interpretation) (r : Reaction) (env : List Value) (inputs : Valuation)
        (tape : List Bool) → ((c : Channel) → has (reads r) c ≡ true → is_some (inputs c) ≡ true) →
        reaction_coins r ≤ length tape →
        (o : Value × List Bool) × (taken : ℕ) × (reaction_outcome J r env inputs tape ≡ Some o) ×
        (taken ≤ reaction_coins r) × (o.1 ≡ drop taken tape) ×
        (length tape ≤ length o.1 + reaction_coins r) }
{}

/// A context that is nested in another makes of a protocol what the outer one makes of what the
/// inner one makes.
pub fn nested_plug()
    ensures { (C E : Context) (p : Protocol) → plugged (nested C E) p ≡ plugged C (plugged E p) }
{}
