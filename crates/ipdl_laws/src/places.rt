//! Laws of places: a part that is replaced, at its place, by one that means the same there.

ghost use Rattle.std.specs.Prelude.{◌≡◌, ℕ, List, Some};
ghost use Rattle.ipdl_laws.specs.Alike.{Alike};
ghost use Rattle.ipdl_laws.specs.Holes.{hole_scope};
ghost use Rattle.ipdl_laws.specs.MeanSame.{MeanSame};
ghost use Rattle.ipdl_term.specs.Contexts.{IsVisibleIn, plugged};
ghost use Rattle.ipdl_term.specs.Equality.{Equal};
ghost use Rattle.ipdl_term.specs.Interpretations.{Interpretation, Interprets, Signature};
ghost use Rattle.ipdl_term.specs.Places.{AreOfOneKind, context_at, term_at, term_with};
ghost use Rattle.ipdl_term.specs.Surroundings.{AreTests, IsTypedAt, Surroundings, around, outermost};
ghost use Rattle.ipdl_term.specs.Terms.{Channel, Context, Expression, Protocol, Reaction, Term, expression_term, protocol_term, reaction_term};
ghost use Rattle.ipdl_term.specs.Typing.{GivesWidth, IsTyped, Scope, Typed};

/// An operand that is replaced, at its place, by one of the same values leaves the whole
/// expression's values.
pub fn same_in_expression()
    ensures { (J : Interpretation) (s : Surroundings) (e : Expression)
        (place : List ℕ) (old new : Term) →
        let whole = expression_term e in
        term_at whole place ≡ Some old → MeanSame J (around s whole place) old new →
        MeanSame J s whole (term_with whole place new) }
{}

/// A part of a typed reaction that is replaced, at its place, by one that means the same there
/// leaves the reaction meaning the same.
pub fn same_in_reaction()
    ensures { (sig : Signature) (J : Interpretation) → Interprets sig J →
        (s : Surroundings) (r : Reaction) (w : ℕ) → GivesWidth sig s.scope s.widths r w →
        (place : List ℕ) (old new : Term) →
        let whole = reaction_term r in
        term_at whole place ≡ Some old → MeanSame J (around s whole place) old new →
        MeanSame J s whole (term_with whole place new) }
{}

/// A part of a typed protocol, of any kind, that is replaced, at its place, by one that means the
/// same there leaves the protocol alike.
pub fn same_in_protocol()
    ensures { (sig : Signature) (J : Interpretation) → Interprets sig J →
        (scope : Scope) (p : Protocol) → IsTyped sig scope p →
        (place : List ℕ) (old new : Term) →
        let whole = protocol_term p in
        term_at whole place ≡ Some old → MeanSame J (around (outermost scope) whole place) old new →
        MeanSame J (outermost scope) whole (term_with whole place new) }
{}

/// Two typed protocols are equal if the one comes from the other by a part that is replaced, at
/// its place, by one that means the same there under every interpretation.
pub fn equal_with_part()
    ensures { (sig : Signature) (scope : Scope) (written : List Channel)
        (p q : Protocol) (place : List ℕ) (old new : Term) →
        let whole = protocol_term p in
        Typed sig scope p written → Typed sig scope q written →
        term_at whole place ≡ Some old → term_with whole place new ≡ protocol_term q →
        ((J : Interpretation) → Interprets sig J →
        MeanSame J (around (outermost scope) whole place) old new) →
        Equal sig scope written p q }
{}

/// The same, where the parts need only mean the same if both, and all tests around them, are typed
/// there.
pub fn equal_with_typed_part()
    ensures { (sig : Signature) (scope : Scope) (written : List Channel)
        (p q : Protocol) (place : List ℕ) (old new : Term) →
        let whole = protocol_term p in
        let s = around (outermost scope) whole place in
        Typed sig scope p written → Typed sig scope q written →
        term_at whole place ≡ Some old → AreOfOneKind old new →
        term_with whole place new ≡ protocol_term q →
        (IsTypedAt sig s old → IsTypedAt sig s new → AreTests sig s.widths s.conditions →
        (J : Interpretation) → Interprets sig J → MeanSame J s old new) →
        Equal sig scope written p q }
{}

/// A part of a typed term is typed at its place, and each test that is met there has one bit.
pub fn typed_part()
    ensures { (sig : Signature) (s : Surroundings) (whole : Term) →
        IsTypedAt sig s whole → AreTests sig s.widths s.conditions →
        (place : List ℕ) (part : Term) → term_at whole place ≡ Some part →
        let there = around s whole place in
        IsTypedAt sig there part × AreTests sig there.widths there.conditions }
{}

/// A part that is replaced by itself leaves the term.
pub fn replaced_by_itself()
    ensures { (whole : Term) (place : List ℕ) (part : Term) →
        term_at whole place ≡ Some part → term_with whole place part ≡ whole }
{}

/// A part that is replaced by one of its kind leaves the kind of the whole and what is around the
/// place, and at the place stands the new part.
pub fn replaced_there_alone()
    ensures { (s : Surroundings) (whole : Term) (place : List ℕ) (part new : Term) →
        term_at whole place ≡ Some part → AreOfOneKind part new →
        let result = term_with whole place new in
        AreOfOneKind whole result × (term_at result place ≡ Some new) ×
        (around s result place ≡ around s whole place) }
{}

/// A protocol that is replaced, at its place in a typed one, by one that is alike in the scope
/// there leaves the whole alike.
pub fn alike_at_place()
    ensures { (sig : Signature) (J : Interpretation) → Interprets sig J →
        (p q : Protocol) (place : List ℕ) (old new : Protocol) (scope : Scope) →
        let whole = protocol_term p in
        IsTyped sig scope p → term_at whole place ≡ Some (protocol_term old) →
        term_with whole place (protocol_term new) ≡ protocol_term q →
        Alike J (around (outermost scope) whole place).scope old new → Alike J scope p q }
{}

/// A protocol that is replaced, at its place in a typed one, by an equal one leaves the whole
/// equal, if the channels of the interface in which the two are equal are visible there.
pub fn equal_at_place()
    ensures { (sig : Signature) (scope : Scope) (written : List Channel)
        (inner : Scope) (inner_written : List Channel)
        (p q : Protocol) (place : List ℕ) (old new : Protocol) →
        let whole = protocol_term p in
        Typed sig scope p written → term_at whole place ≡ Some (protocol_term old) →
        term_with whole place (protocol_term new) ≡ protocol_term q →
        IsVisibleIn inner (around (outermost scope) whole place).scope →
        Equal sig inner inner_written old new → Equal sig scope written p q }
{}

/// Around a place at which a protocol stands there is a context: with the protocol in its hole it
/// is the whole, with another one the whole with that one at the place, and at its hole the same
/// channels are visible.
pub fn context_at_place()
    ensures { (p : Protocol) (place : List ℕ) (old : Protocol) →
        let whole = protocol_term p in
        term_at whole place ≡ Some (protocol_term old) →
        (C : Context) × (context_at p place ≡ Some C) × (p ≡ plugged C old) ×
        ((new : Protocol) → term_with whole place (protocol_term new) ≡ protocol_term (plugged C new)) ×
        ((scope : Scope) → around (outermost scope) whole place ≡ outermost (hole_scope C scope)) }
{}
