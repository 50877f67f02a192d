//! The rule that gives a hidden channel another name: as a law of alike protocols, of typed ones
//! and of equal ones.

ghost use Rattle.std.specs.Prelude.{◌≡◌, ℕ, List, false};
ghost use Rattle.ipdl_laws.specs.Alike.{Alike};
ghost use Rattle.ipdl_term.specs.Equality.{Equal};
ghost use Rattle.ipdl_term.specs.Interpretations.{Interpretation, Signature};
ghost use Rattle.ipdl_term.specs.Renaming.{occurs, renamed, renaming_one};
ghost use Rattle.ipdl_term.specs.Terms.{Channel, Protocol, hiding};
ghost use Rattle.ipdl_term.specs.Typing.{Scope, Typed};

/// A protocol is alike itself with a hidden channel under a name that did not occur below.
pub fn rename_is_alike()
    ensures { (J : Interpretation) (scope : Scope) (c d : Channel) (w : ℕ) (p : Protocol) →
        occurs d p ≡ false →
        Alike J scope (hiding c w p) (hiding d w (renamed (renaming_one c d) p)) }
{}

/// It is typed where it was typed, and writes the same channels.
pub fn rename_is_typed()
    ensures { (sig : Signature) (scope : Scope) (written : List Channel)
        (c d : Channel) (w : ℕ) (p : Protocol) →
        occurs d p ≡ false → Typed sig scope (hiding c w p) written →
        Typed sig scope (hiding d w (renamed (renaming_one c d) p)) written }
{}

/// It is equal to what it was, wherever that is typed.
pub fn rename_is_equal()
    ensures { (sig : Signature) (scope : Scope) (written : List Channel)
        (c d : Channel) (w : ℕ) (p : Protocol) →
        occurs d p ≡ false → Typed sig scope (hiding c w p) written →
        Equal sig scope written (hiding c w p) (hiding d w (renamed (renaming_one c d) p)) }
{}
