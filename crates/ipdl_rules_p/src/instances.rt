//! Laws of all the rules at once: the relation against the answer, typing, and equality, also at a
//! place in a larger protocol.

ghost use Rattle.std.specs.Prelude.{◌≡◌, ◌↔◌, ℕ, List, Some};
ghost use Rattle.ipdl_rules_p.specs.Instances.{IsProtocolInstance, KeepsTypes};
ghost use Rattle.ipdl_rules_p.specs.Matching.{answer, gives};
ghost use Rattle.ipdl_term.specs.Equality.{Equal};
ghost use Rattle.ipdl_term.specs.Interpretations.{Signature};
ghost use Rattle.ipdl_term.specs.Places.{term_at, term_with};
ghost use Rattle.ipdl_term.specs.Rules.{Rule};
ghost use Rattle.ipdl_term.specs.Terms.{Channel, Protocol, protocol_term};
ghost use Rattle.ipdl_term.specs.Typing.{Scope, Typed};

/// A protocol is the right side of a rule for a left one exactly where the rule's answer gives it:
/// the left one has the shape, and no side condition fails.
pub fn instance_exactly()
    ensures { (rule : Rule) (left right : Protocol) →
        IsProtocolInstance rule left right ↔ (answer rule left ≡ gives right) }
{}

/// A rule has at most one right side for a left one.
pub fn one_right_side()
    ensures { (rule : Rule) (left one other : Protocol) →
        IsProtocolInstance rule left one → IsProtocolInstance rule left other → one ≡ other }
{}

/// The right side of a rule is typed where the left one is, and writes the same channels. Of
/// `subsume` this does not hold: its width need not be that of the channel.
pub fn instance_is_typed()
    ensures { (sig : Signature) (scope : Scope) (written : List Channel)
        (rule : Rule) (p q : Protocol) → KeepsTypes rule → IsProtocolInstance rule p q →
        Typed sig scope p written → Typed sig scope q written }
{}

/// The two sides of a rule are equal wherever both are typed.
pub fn instance_means()
    ensures { (sig : Signature) (scope : Scope) (written : List Channel)
        (rule : Rule) (p q : Protocol) → IsProtocolInstance rule p q →
        Typed sig scope p written → Typed sig scope q written → Equal sig scope written p q }
{}

/// A left side of a rule that is replaced, at its place in a typed protocol, by the right side
/// leaves the whole equal, and so typed, if the rule keeps types.
pub fn instance_at_place()
    ensures { (sig : Signature) (scope : Scope) (written : List Channel)
        (p q : Protocol) (place : List ℕ) (rule : Rule) (left right : Protocol) →
        let whole = protocol_term p in
        Typed sig scope p written → term_at whole place ≡ Some (protocol_term left) →
        term_with whole place (protocol_term right) ≡ protocol_term q →
        KeepsTypes rule → IsProtocolInstance rule left right → Equal sig scope written p q }
{}

/// Two typed protocols, of which the one comes from the other by a left side of a rule that is
/// replaced, at its place, by the right side, are equal.
pub fn typed_instance_at_place()
    ensures { (sig : Signature) (scope : Scope) (written : List Channel)
        (p q : Protocol) (place : List ℕ) (rule : Rule) (left right : Protocol) →
        let whole = protocol_term p in
        Typed sig scope p written → Typed sig scope q written →
        term_at whole place ≡ Some (protocol_term left) →
        term_with whole place (protocol_term right) ≡ protocol_term q →
        IsProtocolInstance rule left right → Equal sig scope written p q }
{}
