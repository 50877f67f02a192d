//! Two assignments side by side: what they write, when another second one does the same, and a
//! reaction in the place of a read.

ghost use Rattle.std.specs.Prelude.{◌≡◌, ◌≢◌, ◌+◌, ◌*◌, ◌^◌, ◌≤◌, ◌∷◌, ◌||◌, ℕ, List, [], Bool, Option, Some, None, true, false, length, take, drop};
ghost use Rattle.ipdl_laws.specs.Alike.{Alike, FitsScope, IsMonotone, loop_valuation};
ghost use Rattle.ipdl_laws.specs.Assignments.{given_value, with_value};
ghost use Rattle.ipdl_laws.specs.ReactionContexts.{IsClosed, ReactionContext, context_reads, filled, outcome_with};
ghost use Rattle.ipdl_laws.specs.ReactionTotals.{Weight, reaction_total};
ghost use Rattle.ipdl_term.specs.Channels.{SameSet, has, outputs, reads, same_channel};
ghost use Rattle.ipdl_term.specs.Counts.{total};
ghost use Rattle.ipdl_term.specs.Interpretations.{Interpretation, Signature};
ghost use Rattle.ipdl_term.specs.Places.{reaction_or, term_at, term_with};
ghost use Rattle.ipdl_term.specs.Protocols.{coins, protocol_valuation};
ghost use Rattle.ipdl_term.specs.Reactions.{reaction_coins, reaction_outcome, with_tape};
ghost use Rattle.ipdl_term.specs.Terms.{Channel, Protocol, Reaction, Value, assignment, hiding, parallel, reaction_term, reading};
ghost use Rattle.ipdl_term.specs.Typing.{GivesWidth, Scope};
ghost use Rattle.ipdl_term.specs.Valuations.{Valuation, all_taken_out, nothing, taken_out};
ghost use Rattle.ipdl_term.specs.Variables.{has_flip};

/// Protocols that write the same on every tape that is long enough for both are alike, however many
/// coins each of them has.
pub fn alike_by_valuations()
    ensures { (J : Interpretation) (scope : Scope) (p q : Protocol) →
        SameSet (outputs p) (outputs q) →
        ((tape : List Bool) → coins p ≤ length tape → coins q ≤ length tape → (inputs : Valuation) →
        protocol_valuation J p tape inputs ≡ protocol_valuation J q tape inputs) →
        Alike J scope p q }
{}

/// What two assignments of different channels write: each sees what the other one gives before
/// anything is written.
pub fn two_assignments()
    ensures { (J : Interpretation) (a b : Channel) (r k : Reaction) (tape : List Bool)
        (inputs : Valuation) → a ≢ b →
        let around = all_taken_out (a ∷ b ∷ []) inputs in
        let first = (λ (o : Option Value). given_value J r (take (reaction_coins r) tape) (with_value b o around)) in
        let second = (λ (o : Option Value). given_value J k (drop (reaction_coins r) tape) (with_value a o around)) in
        protocol_valuation J (parallel (assignment a r) (assignment b k)) tape inputs ≡
        with_value a (first (second None)) (with_value b (second (first None)) nothing) }
{}

/// Beside an assignment of a, two assignments of b are alike if they give the same where a has what
/// its reaction gives before b is written.
pub fn alike_beside_assignment()
    ensures { (J : Interpretation) (scope : Scope) (a b : Channel) (r k k' : Reaction) → a ≢ b →
        ((tape_a tape_b : List Bool) → reaction_coins r ≤ length tape_a →
        reaction_coins k ≤ length tape_b → reaction_coins k' ≤ length tape_b →
        (inputs : Valuation) → inputs a ≡ None → inputs b ≡ None →
        let around = with_value a (given_value J r tape_a inputs) inputs in
        given_value J k tape_b around ≡ given_value J k' tape_b around) →
        Alike J scope (parallel (assignment a r) (assignment b k)) (parallel (assignment a r) (assignment b k')) }
{}

/// An assignment beside a hidden one writes what it gives where the hidden channel has what is given
/// there before the other one is written.
pub fn beside_hidden_assignment()
    ensures { (J : Interpretation) (o c : Channel) (w : ℕ) (k r : Reaction) (tape : List Bool)
        (inputs : Valuation) → o ≢ c →
        let around = taken_out c (all_taken_out (o ∷ []) inputs) in
        protocol_valuation J (hiding c w (parallel (assignment o k) (assignment c r))) tape inputs ≡
        with_value o (given_value J k (take (reaction_coins k) tape)
        (with_value c (given_value J r (drop (reaction_coins k) tape) around) around)) nothing }
{}

/// A protocol of at most one output writes, in surroundings that respond, what it writes in what is
/// around it at first.
pub fn loop_of_one_output()
    ensures { (J : Interpretation) (p : Protocol) (o : Channel) →
        ((d : Channel) → has (outputs p) d ≡ true → same_channel o d ≡ true) →
        (response : Valuation → Valuation) → IsMonotone response → (tape : List Bool) →
        loop_valuation J p tape response ≡ protocol_valuation J p tape (response nothing) }
{}

/// Protocols of at most one output are alike if, for all inputs of the widths of the scope, each
/// weight has one total over the tapes that are long enough for both.
pub fn alike_of_one_output()
    ensures { (J : Interpretation) (scope : Scope) (p q : Protocol) (o : Channel) →
        ((d : Channel) → has (outputs p) d ≡ true → same_channel o d ≡ true) →
        SameSet (outputs p) (outputs q) →
        ((inputs : Valuation) → FitsScope scope inputs → (weight : Valuation → ℕ) (n : ℕ) →
        coins p ≤ n → coins q ≤ n →
        total n (λ tape. weight (protocol_valuation J p tape inputs)) ≡
        total n (λ tape. weight (protocol_valuation J q tape inputs))) →
        Alike J scope p q }
{}

/// Around a place at which a reaction stands in another one there is a context: with the reaction in
/// its hole it is the whole, and with another one the whole with that one at the place.
pub fn reaction_context_at_place()
    ensures { (k : Reaction) (place : List ℕ) (old : Reaction) →
        let whole = reaction_term k in
        term_at whole place ≡ Some (reaction_term old) →
        (C : ReactionContext) × (k ≡ filled C old) × ((new : Reaction) →
        reaction_or k (term_with whole place (reaction_term new)) ≡ filled C new) }
{}

/// With a reaction in its hole that does there what a value does, or none, a context does what it
/// does with this value.
pub fn outcome_of_filled()
    ensures { (J : Interpretation) (C : ReactionContext) (r : Reaction) (o : Option Value)
        (inputs : Valuation) →
        ((env : List Value) (tape : List Bool) → reaction_outcome J r env inputs tape ≡ with_tape o tape) →
        (env : List Value) (tape : List Bool) →
        reaction_outcome J (filled C r) env inputs tape ≡ outcome_with J C o env inputs tape }
{}

/// A closed reaction without `flip` does what the value does that it gives on any tape.
pub fn outcome_of_closed()
    ensures { (J : Interpretation) (r : Reaction) (env : List Value) (inputs : Valuation)
        (tape tape' : List Bool) → has_flip r ≡ false → IsClosed r →
        reaction_outcome J r env inputs tape ≡ with_tape (given_value J r tape' inputs) tape }
{}

/// A reaction that is typed under no binders is closed.
pub fn typed_is_closed()
    ensures { (sig : Signature) (scope : Scope) (r : Reaction) (w : ℕ) →
        GivesWidth sig scope [] r w → IsClosed r }
{}

/// With a reaction in its hole a context reads what is read around the hole, and what the reaction
/// reads.
pub fn reads_of_filled()
    ensures { (C : ReactionContext) (r : Reaction) (c : Channel) →
        has (reads (filled C r)) c ≡ (has (context_reads C) c || has (reads r) c) }
{}

/// The total of a reaction with a closed one in its hole, times the number of tapes, is the total of
/// the closed one, where each value weighs as much as the total with that value read in the hole.
pub fn totals_of_filled()
    ensures { (J : Interpretation) (r : Reaction) (c : Channel) → IsClosed r →
        (inputs : Valuation) (n : ℕ) (C : ReactionContext) → has (context_reads C) c ≡ false →
        reaction_coins (filled C (reading c)) + reaction_coins r ≤ n →
        (env : List Value) (weight : Weight) →
        2 ^ n * reaction_total J (filled C r) env inputs n weight ≡ reaction_total J r [] inputs n
        (λ o. reaction_total J (filled C (reading c)) env (with_value c o inputs) n weight) }
{}
