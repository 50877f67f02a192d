//! Laws of what reactions and protocols do: more is written of more, rounds reach least solutions,
//! further bits double counts, the product law of a binding, what is seen, and what a history is.

ghost use Rattle.std.specs.Prelude.{◌≡◌, ◌↔◌, ◌+◌, ◌*◌, ◌^◌, ◌≤◌, ◌∷◌, ◌++◌, List, ℕ, suc, Bool, true, false, Some, None, length, map, take, drop};
ghost use Rattle.ipdl_laws.specs.BothParts.{Both, after_steps, step_of_both};
ghost use Rattle.ipdl_term.specs.Networks.{Node, Written, WrittenWithin, flat_round, flat_valuation, flat_written};
ghost use Rattle.ipdl_laws.specs.ReactionTotals.{OutcomeFits, Weight, reaction_total, total_to, value_count, weight_then};
ghost use Rattle.ipdl_term.specs.Channels.{AreDisjoint, free_channels, has, outputs};
ghost use Rattle.ipdl_term.specs.Counts.{History, history_count, history_valuation, is_history, total};
ghost use Rattle.ipdl_term.specs.Interpretations.{Interpretation, Signature};
ghost use Rattle.ipdl_term.specs.Protocols.{coins, protocol_valuation, round};
ghost use Rattle.ipdl_term.specs.Reactions.{reaction_coins, reaction_outcome};
ghost use Rattle.ipdl_term.specs.Terms.{Channel, Protocol, Reaction, Value, binding, parallel};
ghost use Rattle.ipdl_term.specs.Typing.{IsTyped, Scope};
ghost use Rattle.ipdl_term.specs.Valuations.{LiesWithin, Valuation, all_taken_out, combined, nothing};

/// With more inputs a reaction that is not stuck does the same.
pub fn reaction_is_monotone()
    ensures { (J : Interpretation) (r : Reaction) (env : List Value) (inputs inputs' : Valuation)
        (tape : List Bool) → LiesWithin inputs inputs' → (o : Value × List Bool) →
        reaction_outcome J r env inputs tape ≡ Some o →
        reaction_outcome J r env inputs' tape ≡ Some o }
{}

/// With more inputs a protocol writes what it wrote, and maybe more.
pub fn protocol_is_monotone()
    ensures { (J : Interpretation) (p : Protocol) (tape : List Bool) (inputs inputs' : Valuation) →
        LiesWithin inputs inputs' →
        LiesWithin (protocol_valuation J p tape inputs) (protocol_valuation J p tape inputs') }
{}

/// What two protocols side by side write is left as it is by a further round, and it is the least
/// valuation that a round does not lead out of.
pub fn rounds_reach_the_least()
    ensures { (J : Interpretation) (p q : Protocol) (tape : List Bool) (inputs : Valuation) →
        let left = protocol_valuation J p (take (coins p) tape) in
        let right = protocol_valuation J q (drop (coins p) tape) in
        let stripped = all_taken_out (outputs (parallel p q)) inputs in
        let step = round (outputs p) (outputs q) left right stripped in
        let result = protocol_valuation J (parallel p q) tape inputs in
        (step result ≡ result) × ((t : Valuation) → LiesWithin (step t) t → LiesWithin result t) }
{}

/// Each bit past a protocol's coins doubles the total of whatever depends on what the protocol
/// does.
pub fn further_bits()
    ensures { (J : Interpretation) (p : Protocol) (n : ℕ) (weight : (Valuation → Valuation) → ℕ) →
        coins p ≤ n →
        total (n + 1) (λ tape. weight (protocol_valuation J p tape)) ≡
        2 * total n (λ tape. weight (protocol_valuation J p tape)) }
{}

/// Each bit past a protocol's coins doubles the count of every history.
pub fn count_doubles()
    ensures { (J : Interpretation) (p : Protocol) (n : ℕ) (h : History) → coins p ≤ n →
        history_count J p (n + 1) h ≡ 2 * history_count J p n h }
{}

/// Each bit past a reaction's coins doubles the total of every weight.
pub fn reaction_total_doubles()
    ensures { (J : Interpretation) (r : Reaction) (env : List Value) (inputs : Valuation)
        (n : ℕ) (weight : Weight) → reaction_coins r ≤ n →
        reaction_total J r env inputs (n + 1) weight ≡ 2 * reaction_total J r env inputs n weight }
{}

/// On tapes that are long enough for a binding its total, times the number of tapes, is the total
/// of its first part, where each value weighs as much as the second part's total under it.
pub fn bind_product()
    ensures { (J : Interpretation) (w : ℕ) (r s : Reaction) (env : List Value) (inputs : Valuation)
        (n : ℕ) (weight : Weight) → reaction_coins (binding w r s) ≤ n →
        2 ^ n * reaction_total J (binding w r s) env inputs n weight ≡
        reaction_total J r env inputs n (weight_then J s env inputs n weight) }
{}

/// The number of tapes on which a binding gives a value, times the number of all tapes, is a sum
/// over all values: of the number of tapes on which the first part gives it, times the number of
/// those on which the second part then gives the value. The sum goes over the values of at most so
/// many bits, and from some width on no wider ones add to it.
pub fn bind_product_by_values()
    ensures { (J : Interpretation) (w : ℕ) (r s : Reaction) (env : List Value) (inputs : Valuation)
        (n : ℕ) (v : Value) → reaction_coins (binding w r s) ≤ n →
        (greatest : ℕ) × ((width : ℕ) → greatest ≤ width →
        2 ^ n * value_count J (binding w r s) env inputs n v ≡
        total_to width (λ u. value_count J r env inputs n u * value_count J s (u ∷ env) inputs n v)) }
{}

/// Where the first part of a binding gives values of the binding's width alone, the number of tapes
/// on which the binding gives a value, times the number of all tapes, is a sum over all values of
/// that width: of the number of tapes on which the first part gives it, times the number of those
/// on which the second part then gives the value.
pub fn bind_product_at_width()
    ensures { (J : Interpretation) (w : ℕ) (r s : Reaction) (env : List Value) (inputs : Valuation)
        (n : ℕ) (v : Value) → reaction_coins (binding w r s) ≤ n →
        ((tape : List Bool) → OutcomeFits w (reaction_outcome J r env inputs tape)) →
        2 ^ n * value_count J (binding w r s) env inputs n v ≡
        total w (λ u. value_count J r env inputs n u * value_count J s (u ∷ env) inputs n v) }
{}

/// Flat rounds over all assignments of a typed protocol, each of which reads what the others wrote
/// before, write the same at the outputs as the nested rounds of the protocol's parts.
pub fn flat_values()
    ensures { (sig : Signature) (scope : Scope) (J : Interpretation) (p : Protocol)
        (tape : List Bool) → IsTyped sig scope p →
        protocol_valuation J p tape nothing ≡ flat_valuation J p tape }
{}

/// What flat rounds write, at all numbers, is left as it is by a further round, and it is the least
/// that a round does not lead out of.
pub fn flat_rounds_reach_the_least()
    ensures { (J : Interpretation) (nodes : List Node) (tape : List Bool) →
        let result = flat_written J nodes tape in
        (flat_round J nodes tape result ≡ result) × ((w : Written) →
        WrittenWithin (flat_round J nodes tape w) w → WrittenWithin result w) }
{}

/// What two parts that write different channels write side by side is the pair that steps of both
/// at once come to, in which each part adds what the other wrote before to its inputs: a further
/// step leaves the pair as it is, and it is the least pair that a step does not lead out of.
pub fn parts_reach_the_least()
    ensures { (J : Interpretation) (p q : Protocol) → AreDisjoint (outputs p) (outputs q) →
        (tape : List Bool) (inputs : Valuation) →
        let step = step_of_both J p q tape inputs in
        let result = after_steps J p q tape inputs (suc (length (outputs (parallel p q)))) in
        (protocol_valuation J (parallel p q) tape inputs ≡ combined (outputs p) result.0 result.1) ×
        (step result ≡ result) × ((t : Both) → LiesWithin (step t).0 t.0 → LiesWithin (step t).1 t.1 →
        LiesWithin result.0 t.0 × LiesWithin result.1 t.1) }
{}

/// A protocol writes its outputs alone.
pub fn outputs_alone_are_written()
    ensures { (J : Interpretation) (p : Protocol) (tape : List Bool) (inputs : Valuation)
        (c : Channel) → has (outputs p) c ≡ false → protocol_valuation J p tape inputs c ≡ None }
{}

/// Inputs outside the free channels make no difference.
pub fn free_channels_alone_are_seen()
    ensures { (J : Interpretation) (p : Protocol) (tape : List Bool) (inputs inputs' : Valuation) →
        ((c : Channel) → has (free_channels p) c ≡ true → inputs c ≡ inputs' c) →
        protocol_valuation J p tape inputs ≡ protocol_valuation J p tape inputs' }
{}

/// A protocol's own outputs are not seen among its inputs.
pub fn own_outputs_are_not_seen()
    ensures { (J : Interpretation) (p : Protocol) (tape : List Bool) (inputs inputs' : Valuation) →
        ((c : Channel) → has (outputs p) c ≡ false → inputs c ≡ inputs' c) →
        protocol_valuation J p tape inputs ≡ protocol_valuation J p tape inputs' }
{}

/// A valuation has a history exactly where it is the history's own at the given outputs and at the
/// history's channels.
pub fn history_exactly()
    ensures { (written : List Channel) (h : History) (p : Valuation) →
        (is_history written h p ≡ true) ↔ ((c : Channel) →
        has (written ++ map (λ (e : Channel × Value). e.0) h) c ≡ true → p c ≡ history_valuation h c) }
{}

/// What a protocol writes has a history exactly where it is all that the protocol writes.
pub fn history_is_what_is_written()
    ensures { (J : Interpretation) (p : Protocol) (tape : List Bool) (inputs : Valuation) (h : History) →
        (is_history (outputs p) h (protocol_valuation J p tape inputs) ≡ true) ↔
        (protocol_valuation J p tape inputs ≡ history_valuation h) }
{}
