//! Laws of shapes. The functions do nothing, and their contracts are the laws: where no name
//! repeats, the shape has the type of the protocol, is equal to it, and may stand in its place.

ghost use Rattle.std.specs.Prelude.{◌≡◌, List, None, Some, ℕ};
ghost use Rattle.ipdl_norm.specs.Repeated.{first_repeated_name};
ghost use Rattle.ipdl_norm.specs.Shaped.{shaped};
ghost use Rattle.ipdl_term.specs.Equality.{Equal};
ghost use Rattle.ipdl_term.specs.Interpretations.{Signature};
ghost use Rattle.ipdl_term.specs.Places.{term_at, term_with};
ghost use Rattle.ipdl_term.specs.Terms.{Channel, Protocol, protocol_term};
ghost use Rattle.ipdl_term.specs.Typing.{Scope, Typed};

/// The shape is typed wherever the protocol is, and writes the same channels.
pub fn shaped_is_typed()
    ensures { (sig : Signature) (scope : Scope) (written : List Channel) (p : Protocol) →
        first_repeated_name p ≡ None → Typed sig scope p written →
        Typed sig scope (shaped p) written }
{}

/// The protocol and its shape are equal wherever the protocol is typed.
pub fn shaped_is_equal()
    ensures { (sig : Signature) (scope : Scope) (written : List Channel) (p : Protocol) →
        first_repeated_name p ≡ None → Typed sig scope p written →
        Equal sig scope written p (shaped p) }
{}

/// A protocol that is replaced, at its place in a typed one, by its shape leaves the whole equal,
/// and so typed.
pub fn shaped_at_place()
    ensures { (sig : Signature) (scope : Scope) (written : List Channel)
        (p q : Protocol) (place : List ℕ) (part : Protocol) →
        let whole = protocol_term p in
        Typed sig scope p written → term_at whole place ≡ Some (protocol_term part) →
        term_with whole place (protocol_term (shaped part)) ≡ protocol_term q →
        first_repeated_name part ≡ None → Equal sig scope written p q }
{}
