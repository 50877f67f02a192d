//! Laws of all the rules at once: the relation against the answer, typing, and meaning, also at a
//! place in a protocol.

ghost use Rattle.std.specs.Prelude.{◌≡◌, ◌↔◌, List, Some, ℕ};
ghost use Rattle.ipdl_laws.specs.MeanSame.{MeanSame};
ghost use Rattle.ipdl_rules_r.specs.Instances.{ArgumentFits, IsReactionInstance};
ghost use Rattle.ipdl_rules_r.specs.Matching.{answer, gives};
ghost use Rattle.ipdl_rules_r.specs.SameTotals.{HaveSameTotals};
ghost use Rattle.ipdl_rules_r.specs.Tables.{TablesAreWhole};
ghost use Rattle.ipdl_term.specs.Equality.{Equal};
ghost use Rattle.ipdl_term.specs.Interpretations.{Interpretation, Interprets, Signature};
ghost use Rattle.ipdl_term.specs.Places.{term_at, term_with};
ghost use Rattle.ipdl_term.specs.Rules.{Rule};
ghost use Rattle.ipdl_term.specs.Surroundings.{FitWidths, IsTypedAt, Surroundings, around, outermost};
ghost use Rattle.ipdl_term.specs.Terms.{Channel, Protocol, Reaction, Value, protocol_term, reaction_term};
ghost use Rattle.ipdl_term.specs.Typing.{GivesWidth, Scope, Typed};
ghost use Rattle.ipdl_term.specs.Valuations.{Valuation};

/// A reaction is the right side of a rule for a left one exactly where the rule's answer gives it:
/// the left one has the shape, and no side condition fails.
pub fn instance_exactly()
    ensures { (sig : Signature) (rule : Rule) (left right : Reaction) →
        IsReactionInstance sig rule left right ↔ (answer sig rule left ≡ gives right) }
{}

/// A rule has at most one right side for a left one.
pub fn one_right_side()
    ensures { (sig : Signature) (rule : Rule) (left one other : Reaction) →
        IsReactionInstance sig rule left one → IsReactionInstance sig rule left other →
        one ≡ other }
{}

/// The right side of a rule is typed where the left one is, with the same width, if the rule's
/// argument fits there. Of `mask` that is to say that its expression has the width of the flip; the
/// other rules ask nothing.
pub fn instance_is_typed()
    ensures { (sig : Signature) (scope : Scope) (widths : List ℕ)
        (rule : Rule) (left right : Reaction) (w : ℕ) →
        IsReactionInstance sig rule left right → ArgumentFits sig widths rule left →
        GivesWidth sig scope widths left w → GivesWidth sig scope widths right w }
{}

/// The two sides of a rule have the same totals, where the right one is typed.
pub fn instance_is_as_likely()
    ensures { (sig : Signature) → TablesAreWhole sig → (J : Interpretation) → Interprets sig J →
        (scope : Scope) (widths : List ℕ) (env : List Value) → FitWidths widths env →
        (inputs : Valuation) (rule : Rule) (left right : Reaction) (w : ℕ) →
        IsReactionInstance sig rule left right → GivesWidth sig scope widths right w →
        HaveSameTotals J env inputs left right }
{}

/// The two sides of a rule mean the same wherever the right one is typed.
pub fn instance_means()
    ensures { (sig : Signature) → TablesAreWhole sig → (J : Interpretation) → Interprets sig J →
        (s : Surroundings) (rule : Rule) (left right : Reaction) →
        IsReactionInstance sig rule left right → IsTypedAt sig s (reaction_term right) →
        MeanSame J s (reaction_term left) (reaction_term right) }
{}

/// A left side of a rule that is replaced, at its place in a typed protocol, by the right side
/// leaves the whole equal, and so typed, if the rule's argument fits at the place.
pub fn instance_at_place()
    ensures { (sig : Signature) → TablesAreWhole sig → (scope : Scope) (written : List Channel)
        (p q : Protocol) (place : List ℕ) (rule : Rule) (left right : Reaction) →
        let whole = protocol_term p in
        Typed sig scope p written → term_at whole place ≡ Some (reaction_term left) →
        term_with whole place (reaction_term right) ≡ protocol_term q →
        IsReactionInstance sig rule left right →
        ArgumentFits sig (around (outermost scope) whole place).widths rule left →
        Equal sig scope written p q }
{}

/// Two typed protocols, of which the one comes from the other by a left side of a rule that is
/// replaced, at its place, by the right side, are equal.
pub fn typed_instance_at_place()
    ensures { (sig : Signature) → TablesAreWhole sig → (scope : Scope) (written : List Channel)
        (p q : Protocol) (place : List ℕ) (rule : Rule) (left right : Reaction) →
        let whole = protocol_term p in
        Typed sig scope p written → Typed sig scope q written →
        term_at whole place ≡ Some (reaction_term left) →
        term_with whole place (reaction_term right) ≡ protocol_term q →
        IsReactionInstance sig rule left right → Equal sig scope written p q }
{}

/// A reaction that is replaced, at its place in a typed protocol, by one that has each width there
/// that the first has leaves the whole typed, and it writes the same channels.
pub fn typed_with_reaction()
    ensures { (sig : Signature) (scope : Scope) (written : List Channel)
        (p q : Protocol) (place : List ℕ) (old new : Reaction) →
        let whole = protocol_term p in
        let s = around (outermost scope) whole place in
        Typed sig scope p written → term_at whole place ≡ Some (reaction_term old) →
        term_with whole place (reaction_term new) ≡ protocol_term q →
        ((w : ℕ) → GivesWidth sig s.scope s.widths old w → GivesWidth sig s.scope s.widths new w) →
        Typed sig scope q written }
{}
