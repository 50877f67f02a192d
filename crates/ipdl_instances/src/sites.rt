//! Sites of an interface: what is used there is typed, and equal protocols of the interface are
//! equal there.

ghost use Rattle.std.specs.List.{IsDistinct};
ghost use Rattle.std.specs.Map.{keys_of, values_of};
ghost use Rattle.std.specs.Prelude.{◌≡◌, ◌++◌, ℕ, List, Some};
ghost use Rattle.ipdl_embed.specs.Pairs.{Pairs};
ghost use Rattle.ipdl_instances.specs.Sites.{AreVisible, IsSite};
ghost use Rattle.ipdl_laws.specs.Holes.{hole_scope};
ghost use Rattle.ipdl_term.specs.Channels.{AreDisjoint, IsWithin, same_channel};
ghost use Rattle.ipdl_term.specs.Contexts.{plugged};
ghost use Rattle.ipdl_term.specs.Equality.{Equal};
ghost use Rattle.ipdl_term.specs.Interpretations.{Signature};
ghost use Rattle.ipdl_term.specs.Places.{context_at, term_at, term_with};
ghost use Rattle.ipdl_term.specs.Renaming.{hidden_channels, renamed, renaming_of};
ghost use Rattle.ipdl_term.specs.Surroundings.{around, outermost};
ghost use Rattle.ipdl_term.specs.Terms.{Channel, Context, Protocol, protocol_term};
ghost use Rattle.ipdl_term.specs.Typing.{HasInterface, Scope, Typed, port_names, scope_of};
ghost use Rattle.ipdl_term.specs.declared.interface.Interface.{Interface};

/// A context in which a protocol of the interface is typed, in the names that the pairs give, is a
/// site of the interface.
pub fn site_of_instance()
    ensures { (sig : Signature) (i : Interface) (pairs : Pairs) →
        IsWithin (port_names (i.inputs ++ i.outputs)) (keys_of pairs) →
        IsDistinct same_channel (values_of pairs) →
        (C : Context) (scope : Scope) (written : List Channel) →
        AreVisible i pairs (hole_scope C scope) →
        (p : Protocol) → HasInterface sig i p → AreDisjoint (values_of pairs) (hidden_channels p) →
        Typed sig scope (plugged C (renamed (renaming_of pairs) p)) written →
        IsSite sig i pairs C scope written }
{}

/// Equal protocols of the interface are equal at a site, where no new name is hidden in either.
pub fn instances_are_equal()
    ensures { (sig : Signature) (i : Interface) (pairs : Pairs)
        (C : Context) (scope : Scope) (written : List Channel) →
        IsSite sig i pairs C scope written →
        (u v : Protocol) → AreDisjoint (values_of pairs) (hidden_channels u) →
        AreDisjoint (values_of pairs) (hidden_channels v) →
        Equal sig (scope_of (i.inputs ++ i.outputs)) (port_names i.outputs) u v →
        let f = renaming_of pairs in
        Equal sig scope written (plugged C (renamed f u)) (plugged C (renamed f v)) }
{}

/// A protocol of the interface is typed at a site, where no new name is hidden in it.
pub fn instance_is_typed()
    ensures { (sig : Signature) (i : Interface) (pairs : Pairs)
        (C : Context) (scope : Scope) (written : List Channel) →
        IsSite sig i pairs C scope written →
        (u : Protocol) → HasInterface sig i u → AreDisjoint (values_of pairs) (hidden_channels u) →
        Typed sig scope (plugged C (renamed (renaming_of pairs) u)) written }
{}

/// With the protocol that stands at a place in its hole, the context at the place is the whole, and
/// with another one the whole with that one there. At its hole the same channels are visible.
pub fn place_of_context()
    ensures { (p : Protocol) (place : List ℕ) (C : Context) (q : Protocol) →
        let whole = protocol_term p in
        context_at p place ≡ Some C → term_at whole place ≡ Some (protocol_term q) →
        (p ≡ plugged C q) ×
        ((new : Protocol) → term_with whole place (protocol_term new) ≡ protocol_term (plugged C new)) ×
        ((scope : Scope) → (around (outermost scope) whole place).scope ≡ hole_scope C scope) }
{}

/// The context at the place of a protocol of the interface, in the names that the pairs give, is a
/// site, where those names are visible at the place.
pub fn site_at_place()
    ensures { (sig : Signature) (i : Interface) (pairs : Pairs) →
        IsWithin (port_names (i.inputs ++ i.outputs)) (keys_of pairs) →
        IsDistinct same_channel (values_of pairs) →
        (scope : Scope) (written : List Channel) (p : Protocol) (place : List ℕ) (C : Context) →
        let whole = protocol_term p in
        Typed sig scope p written → context_at p place ≡ Some C →
        (q : Protocol) → term_at whole place ≡ Some (protocol_term (renamed (renaming_of pairs) q)) →
        HasInterface sig i q → AreDisjoint (values_of pairs) (hidden_channels q) →
        AreVisible i pairs (around (outermost scope) whole place).scope →
        IsSite sig i pairs C scope written }
{}
