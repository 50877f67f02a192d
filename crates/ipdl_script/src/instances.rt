//! Laws of the instances of rules at places, and of settled steps.

ghost use Rattle.std.specs.Prelude.{◌≡◌, ◌↔◌, ℕ, List, None, Some, map};
ghost use Rattle.ipdl_rules_r.specs.Tables.{TablesAreWhole};
ghost use Rattle.ipdl_script.specs.Instances.{IsInstanceAt, answer_at, gives, truth_at};
ghost use Rattle.ipdl_script.specs.Settling.{settled_argument, settled_rule};
ghost use Rattle.ipdl_term.specs.Equality.{Equal};
ghost use Rattle.ipdl_term.specs.Interpretations.{Signature};
ghost use Rattle.ipdl_term.specs.Places.{AreOfOneKind, term_at, term_with};
ghost use Rattle.ipdl_term.specs.Rules.{Rule, row_of};
ghost use Rattle.ipdl_term.specs.Surroundings.{Surroundings, around, outermost};
ghost use Rattle.ipdl_term.specs.Terms.{Channel, Protocol, Term, protocol_term};
ghost use Rattle.ipdl_term.specs.Typing.{Scope, Typed};

/// A term is the right side of a rule for a left one exactly where the rule's answer gives it and
/// the truth that the rule asks for holds.
pub fn instance_exactly()
    ensures { (sig : Signature) (s : Surroundings) (rule : Rule) (left right : Term) →
        IsInstanceAt sig s rule left right ↔
        ((answer_at sig s rule left ≡ gives right) × (truth_at sig s rule left ≡ None)) }
{}

/// Two typed protocols, of which the one comes from the other by a left side of a rule that is
/// replaced, at its place, by the right side, are equal.
pub fn instance_is_equal()
    ensures { (sig : Signature) → TablesAreWhole sig → (scope : Scope) (written : List Channel)
        (p q : Protocol) (place : List ℕ) (rule : Rule) (left right : Term) →
        let whole = protocol_term p in
        Typed sig scope p written → Typed sig scope q written →
        term_at whole place ≡ Some left → term_with whole place right ≡ protocol_term q →
        IsInstanceAt sig (around (outermost scope) whole place) rule left right →
        Equal sig scope written p q }
{}

/// A settled rule has the word and the kind of the rule, and its arguments are the settled ones.
pub fn settled_arguments()
    ensures { (depth : ℕ) (rule : Rule) → let settled = row_of (settled_rule depth rule) in
        (settled.word ≡ (row_of rule).word) × (settled.kind ≡ (row_of rule).kind) ×
        (settled.arguments ≡ map (settled_argument depth) (row_of rule).arguments) }
{}

/// A part that is replaced by one of its kind and put back leaves the whole.
pub fn replaced_and_put_back()
    ensures { (whole : Term) (place : List ℕ) (part new : Term) →
        term_at whole place ≡ Some part → AreOfOneKind part new →
        term_with (term_with whole place new) place part ≡ whole }
{}
