//! Uses within uses: a protocol that is used in a context is carried along where that is used.

ghost use Rattle.std.specs.Map.{keys_of, values_of};
ghost use Rattle.std.specs.Prelude.{◌≡◌, ◌++◌, ℕ, List, Some};
ghost use Rattle.ipdl_embed.specs.Pairs.{Pairs};
ghost use Rattle.ipdl_embed.specs.Following.{followed, hidden_on_way};
ghost use Rattle.ipdl_term.specs.Channels.{AreDisjoint, IsWithin, free_channels};
ghost use Rattle.ipdl_term.specs.Contexts.{nested, plugged};
ghost use Rattle.ipdl_term.specs.Interpretations.{Signature};
ghost use Rattle.ipdl_term.specs.Places.{context_at};
ghost use Rattle.ipdl_term.specs.Renaming.{hidden_around, hidden_channels, renamed, renamed_context, renaming_at, renaming_of};
ghost use Rattle.ipdl_term.specs.Terms.{Channel, Context, Protocol};
ghost use Rattle.ipdl_term.specs.Typing.{HasInterface, port_names};
ghost use Rattle.ipdl_term.specs.declared.interface.Interface.{Interface};

/// Pairs that are followed by others at the hole of a context rename as the two do, one after the
/// other, where they name each free channel and none of their new names is hidden.
pub fn renamed_by_followed()
    ensures { (C : Context) (outer inner : Pairs) (p : Protocol) →
        AreDisjoint (values_of inner) (hidden_channels p) →
        IsWithin (free_channels p) (keys_of inner) →
        renamed (renaming_of (followed (hidden_around C) outer inner)) p ≡
        renamed (renaming_at C (renaming_of outer)) (renamed (renaming_of inner) p) }
{}

/// They name the same channels, and what has none of the new names of either has none of theirs.
pub fn names_of_followed()
    ensures keys { (hidden : List Channel) (outer inner : Pairs) →
        keys_of (followed hidden outer inner) ≡ keys_of inner }
    ensures values { (hidden : List Channel) (outer inner : Pairs) (cs : List Channel) →
        AreDisjoint (values_of outer) cs → AreDisjoint (values_of inner) cs →
        AreDisjoint (values_of (followed hidden outer inner)) cs }
{}

/// A protocol that is used in a context, which is itself used in other names, is used there in the
/// names that follow.
pub fn carried_along()
    ensures { (C : Context) (outer inner : Pairs) (p : Protocol) →
        AreDisjoint (values_of inner) (hidden_channels p) →
        IsWithin (free_channels p) (keys_of inner) → (E : Context) →
        let f = renaming_of outer in
        plugged E (renamed f (plugged C (renamed (renaming_of inner) p))) ≡
        plugged (nested E (renamed_context f C))
        (renamed (renaming_of (followed (hidden_around C) outer inner)) p) }
{}

/// A protocol of an interface has no free channel but those of the interface.
pub fn free_channels_of_interface()
    ensures { (sig : Signature) (i : Interface) (p : Protocol) → HasInterface sig i p →
        IsWithin (free_channels p) (port_names (i.inputs ++ i.outputs)) }
{}

/// What is hidden around the context at a place is what is hidden on the way to the place.
pub fn hidden_around_place()
    ensures { (p : Protocol) (place : List ℕ) (C : Context) → context_at p place ≡ Some C →
        hidden_on_way p place ≡ hidden_around C }
{}
