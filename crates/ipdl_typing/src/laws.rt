//! The laws of the checks. Each is a function that does nothing and has the law as its contract,
//! so that the check proves it.

ghost use Rattle.std.specs.Prelude.{◌≡◌, ◌↔◌, ◌++◌, ℕ, List, []};
ghost use Rattle.ipdl_term.specs.Interpretations.{Signature};
ghost use Rattle.ipdl_term.specs.Terms.{Expression, Reaction, Protocol};
ghost use Rattle.ipdl_term.specs.Typing.{Scope, HasWidth, GivesWidth, HasInterface};
ghost use Rattle.ipdl_term.specs.declared.interface.Interface.{Interface as Declared};
ghost use Rattle.ipdl_typing.specs.Checks.{side_failures, expression_width, expression_failures, reaction_width, reaction_failures};
ghost use Rattle.ipdl_typing.specs.Interfaces.{SamePorts, HasEachNameOnce, interface_failures};

/// An expression has one width at most, and so do the values that a reaction gives.
pub fn one_width()
    ensures expressions { (sig : Signature) (widths : List ℕ) (e : Expression) (v w : ℕ) →
        HasWidth sig widths e v → HasWidth sig widths e w → v ≡ w }
    ensures reactions { (sig : Signature) (scope : Scope) (widths : List ℕ) (r : Reaction)
        (v w : ℕ) → GivesWidth sig scope widths r v → GivesWidth sig scope widths r w → v ≡ w }
{}

/// No check fails exactly where the term is typed: an expression and a reaction at the width that
/// the checks compute, and a protocol at its interface.
pub fn typed_exactly()
    ensures expressions { (sig : Signature) (widths path : List ℕ) (e : Expression) →
        (expression_failures sig widths path e ≡ [])
        ↔ HasWidth sig widths e (expression_width sig widths e) }
    ensures reactions { (sig : Signature) (scope : Scope) (widths path : List ℕ) (r : Reaction) →
        (reaction_failures sig scope widths path r ≡ [])
        ↔ GivesWidth sig scope widths r (reaction_width sig scope widths r) }
    ensures protocols { (sig : Signature) (interface : Declared) (p : Protocol) →
        (interface_failures sig interface p ≡ []) ↔ HasInterface sig interface p }
{}

/// The sides have no failure exactly where they have the same inputs and the same outputs.
pub fn same_exactly()
    ensures { (left right : Declared) → (side_failures left right ≡ [])
        ↔ (SamePorts left.inputs right.inputs × SamePorts left.outputs right.outputs) }
{}

/// A protocol that has an interface also has each one with the same ports, if that one has no two
/// ports of one name.
pub fn same_ports_same_type()
    ensures { (sig : Signature) (left right : Declared) (p : Protocol) →
        HasEachNameOnce (right.inputs ++ right.outputs) →
        SamePorts left.inputs right.inputs → SamePorts left.outputs right.outputs →
        HasInterface sig left p → HasInterface sig right p }
{}
