//! Laws of the equality of protocols, and of the relation of alike protocols that it follows from.

ghost use Rattle.std.specs.Prelude.{◌≡◌, ℕ, ◌≤◌, List, [], Bool, None};
ghost use Rattle.ipdl_laws.specs.Alike.{Alike, FitsScope, KeepsScope};
ghost use Rattle.ipdl_laws.specs.Holes.{hole_scope};
ghost use Rattle.ipdl_laws.specs.ReactionTotals.{Weight, reaction_total};
ghost use Rattle.ipdl_term.specs.Channels.{AreDisjoint, SameSet, outputs};
ghost use Rattle.ipdl_term.specs.Contexts.{IsTypedContext, context_outputs, plugged};
ghost use Rattle.ipdl_term.specs.Equality.{Equal};
ghost use Rattle.ipdl_term.specs.Interpretations.{Interpretation, Interprets, Signature};
ghost use Rattle.ipdl_term.specs.Protocols.{protocol_valuation};
ghost use Rattle.ipdl_term.specs.Reactions.{reaction_coins};
ghost use Rattle.ipdl_term.specs.Terms.{Channel, Context, Protocol, Reaction, assignment, hiding, parallel};
ghost use Rattle.ipdl_term.specs.Typing.{IsTyped, Scope, Typed, scope_with};
ghost use Rattle.ipdl_term.specs.Valuations.{Valuation};

/// Each protocol is alike itself.
pub fn alike_is_reflexive()
    ensures { (J : Interpretation) (scope : Scope) (p : Protocol) → Alike J scope p p }
{}

/// Alike protocols are alike in the other order.
pub fn alike_is_symmetric()
    ensures { (J : Interpretation) (scope : Scope) (p q : Protocol) →
        Alike J scope p q → Alike J scope q p }
{}

/// Protocols that are alike a third one are alike.
pub fn alike_is_transitive()
    ensures { (J : Interpretation) (scope : Scope) (p q r : Protocol) →
        Alike J scope p q → Alike J scope q r → Alike J scope p r }
{}

/// Two assignments of one channel are alike if, for all inputs of the widths of the scope that have
/// no value on the channel itself, each weight of what the reactions give has one total over the
/// tapes that are long enough for both.
pub fn alike_assignments()
    ensures { (J : Interpretation) (scope : Scope) (c : Channel) (r s : Reaction) →
        ((inputs : Valuation) → FitsScope scope inputs → inputs c ≡ None →
        (weight : Weight) (n : ℕ) → reaction_coins r ≤ n → reaction_coins s ≤ n →
        reaction_total J r [] inputs n weight ≡ reaction_total J s [] inputs n weight) →
        Alike J scope (assignment c r) (assignment c s) }
{}

/// Alike protocols stay alike on the left of a partner that writes other channels and keeps the
/// widths of the scope.
pub fn alike_beside_left()
    ensures { (J : Interpretation) (scope : Scope) (p q r : Protocol) → Alike J scope p q →
        AreDisjoint (outputs p) (outputs r) →
        ((tape : List Bool) → KeepsScope scope (protocol_valuation J r tape)) →
        Alike J scope (parallel p r) (parallel q r) }
{}

/// Alike protocols stay alike on the right of a partner that writes other channels and keeps the
/// widths of the scope.
pub fn alike_beside_right()
    ensures { (J : Interpretation) (scope : Scope) (p q r : Protocol) → Alike J scope p q →
        AreDisjoint (outputs r) (outputs p) →
        ((tape : List Bool) → KeepsScope scope (protocol_valuation J r tape)) →
        Alike J scope (parallel r p) (parallel r q) }
{}

/// Protocols that are alike where a channel is visible are alike with that channel hidden.
pub fn alike_under_hiding()
    ensures { (J : Interpretation) (scope : Scope) (c : Channel) (w : ℕ) (p q : Protocol) →
        Alike J (scope_with c w scope) p q → Alike J scope (hiding c w p) (hiding c w q) }
{}

/// A typed protocol keeps the widths of its scope, as a partner of alike protocols must.
pub fn typed_keeps_scope()
    ensures { (sig : Signature) (J : Interpretation) → Interprets sig J →
        (p : Protocol) (scope : Scope) → IsTyped sig scope p →
        (tape : List Bool) → KeepsScope scope (protocol_valuation J p tape) }
{}

/// Alike protocols that are typed in a scope are alike in every context that is typed around it.
pub fn alike_in_context()
    ensures { (sig : Signature) (J : Interpretation) → Interprets sig J →
        (inner : Scope) (written : List Channel) (p q : Protocol) →
        IsTyped sig inner p → IsTyped sig inner q → SameSet (outputs p) written →
        Alike J inner p q →
        (C : Context) (scope : Scope) → IsTypedContext sig inner written scope C →
        Alike J scope (plugged C p) (plugged C q) }
{}

/// In a context in which the first of two protocols is typed they are alike if they are alike in
/// the scope at the hole.
pub fn alike_at_hole()
    ensures { (sig : Signature) (J : Interpretation) → Interprets sig J →
        (p q : Protocol) (C : Context) (scope : Scope) → IsTyped sig scope (plugged C p) →
        Alike J (hole_scope C scope) p q → Alike J scope (plugged C p) (plugged C q) }
{}

/// Typed protocols that are alike under every interpretation are equal.
pub fn alike_is_equal()
    ensures { (sig : Signature) (scope : Scope) (written : List Channel) (p q : Protocol) →
        Typed sig scope p written → Typed sig scope q written →
        ((J : Interpretation) → Interprets sig J → Alike J scope p q) →
        Equal sig scope written p q }
{}

/// A typed protocol is equal to itself.
pub fn equal_is_reflexive()
    ensures { (sig : Signature) (scope : Scope) (written : List Channel) (p : Protocol) →
        Typed sig scope p written → Equal sig scope written p p }
{}

/// Equal protocols are equal in the other order.
pub fn equal_is_symmetric()
    ensures { (sig : Signature) (scope : Scope) (written : List Channel) (p q : Protocol) →
        Equal sig scope written p q → Equal sig scope written q p }
{}

/// Protocols that are equal to a third one are equal.
pub fn equal_is_transitive()
    ensures { (sig : Signature) (scope : Scope) (written : List Channel) (p q r : Protocol) →
        Equal sig scope written p q → Equal sig scope written q r → Equal sig scope written p r }
{}

/// Equal protocols are equal in a context that is typed around their interface.
pub fn equal_in_context()
    ensures { (sig : Signature) (C : Context) (inner : Scope) (inner_written : List Channel)
        (scope : Scope) (written : List Channel) → IsTypedContext sig inner inner_written scope C →
        SameSet (context_outputs C inner_written) written →
        (p q : Protocol) → Equal sig inner inner_written p q →
        Equal sig scope written (plugged C p) (plugged C q) }
{}
