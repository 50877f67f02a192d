//! Renamed protocols: their free channels take other names. They do the same under those, and equal
//! protocols stay equal.

ghost use Rattle.std.specs.List.{IsDistinct};
ghost use Rattle.std.specs.Map.{keys_of, values_of};
ghost use Rattle.std.specs.Prelude.{◌≡◌, ◌++◌, ℕ, List, Bool, true, map, Some, is_some};
ghost use Rattle.ipdl_term.specs.Channels.{AreDisjoint, IsWithin, free_channels, has, outputs, same_channel};
ghost use Rattle.ipdl_term.specs.Equality.{Equal};
ghost use Rattle.ipdl_term.specs.Interpretations.{Interpretation, Signature};
ghost use Rattle.ipdl_term.specs.Places.{term_at, term_with};
ghost use Rattle.ipdl_term.specs.Protocols.{coins, protocol_valuation};
ghost use Rattle.ipdl_term.specs.Renaming.{CapturesNone, IsInjectiveOn, Renaming, hidden_channels, renamed, renaming_of};
ghost use Rattle.ipdl_term.specs.Surroundings.{around, outermost};
ghost use Rattle.ipdl_term.specs.Terms.{Channel, Protocol, protocol_term};
ghost use Rattle.ipdl_term.specs.Typing.{IsTyped, Scope, Typed, port_names, scope_of};
ghost use Rattle.ipdl_term.specs.Valuations.{Valuation};
ghost use Rattle.ipdl_term.specs.declared.interface.Interface.{Interface};

/// A renamed protocol takes as many coins.
pub fn coins_of_renamed()
    ensures { (f : Renaming) (p : Protocol) → coins (renamed f p) ≡ coins p }
{}

/// A protocol whose free channels take different names, none of which is captured, writes the new
/// names of what it wrote.
pub fn outputs_of_renamed()
    ensures { (f : Renaming) (p : Protocol) →
        IsInjectiveOn (free_channels p) f → CapturesNone (free_channels p) f p →
        outputs (renamed f p) ≡ map f (outputs p) }
{}

/// Its free channels are the new names of those that it had.
pub fn free_channels_of_renamed()
    ensures { (f : Renaming) (p : Protocol) →
        IsInjectiveOn (free_channels p) f → CapturesNone (free_channels p) f p →
        free_channels (renamed f p) ≡ map f (free_channels p) }
{}

/// It is typed where the new names are visible with the widths of the old ones.
pub fn renamed_is_typed()
    ensures { (f : Renaming) (p : Protocol) →
        IsInjectiveOn (free_channels p) f → CapturesNone (free_channels p) f p →
        (sig : Signature) (scope scope' : Scope) →
        ((c : Channel) (w : ℕ) → has (free_channels p) c ≡ true → scope c ≡ Some w →
        scope' (f c) ≡ Some w) →
        IsTyped sig scope p → IsTyped sig scope' (renamed f p) }
{}

/// Under its new names it writes what it wrote, where the inputs are the same under their new
/// names.
pub fn valuation_of_renamed()
    ensures { (f : Renaming) (p : Protocol) →
        IsInjectiveOn (free_channels p) f → CapturesNone (free_channels p) f p →
        (J : Interpretation) (tape : List Bool) (inputs inputs' : Valuation) →
        ((c : Channel) → has (free_channels p) c ≡ true → inputs' (f c) ≡ inputs c) →
        (c : Channel) → has (free_channels p) c ≡ true →
        protocol_valuation J (renamed f p) tape inputs' (f c) ≡
        protocol_valuation J p tape inputs c }
{}

/// Equal protocols are equal in new names, where different channels of their scope, which are all
/// listed, take different names, none of them is captured, and each is visible with the width of
/// its channel.
pub fn equal_renamed()
    ensures { (f : Renaming) (names : List Channel) → IsInjectiveOn names f →
        (sig : Signature) (inner outer : Scope) (written : List Channel) →
        ((c : Channel) → is_some (inner c) ≡ true → has names c ≡ true) →
        ((c : Channel) (w : ℕ) → inner c ≡ Some w → outer (f c) ≡ Some w) →
        (p q : Protocol) → CapturesNone names f p → CapturesNone names f q →
        Equal sig inner written p q →
        Equal sig outer (map f written) (renamed f p) (renamed f q) }
{}

/// A part of a typed protocol that is one of two equal protocols in new names may be replaced, at
/// its place, by the other one in the same names.
pub fn equal_renamed_at_place()
    ensures { (f : Renaming) (names : List Channel) → IsInjectiveOn names f →
        (sig : Signature) (inner : Scope) (inner_written : List Channel) →
        ((c : Channel) → is_some (inner c) ≡ true → has names c ≡ true) →
        (old new : Protocol) → CapturesNone names f old → CapturesNone names f new →
        Equal sig inner inner_written old new →
        (scope : Scope) (written : List Channel) (p q : Protocol) (place : List ℕ) →
        let whole = protocol_term p in
        Typed sig scope p written → term_at whole place ≡ Some (protocol_term (renamed f old)) →
        term_with whole place (protocol_term (renamed f new)) ≡ protocol_term q →
        ((c : Channel) (w : ℕ) → inner c ≡ Some w →
        (around (outermost scope) whole place).scope (f c) ≡ Some w) →
        Equal sig scope written p q }
{}

/// The renaming of pairs takes different first names to different names where the second names are
/// distinct.
pub fn pairs_are_injective()
    ensures { (pairs : List (Channel × Channel)) → IsDistinct same_channel (values_of pairs) →
        IsInjectiveOn (keys_of pairs) (renaming_of pairs) }
{}

/// None of the first names is captured where no second name is hidden.
pub fn pairs_capture_none()
    ensures { (pairs : List (Channel × Channel)) (p : Protocol) →
        AreDisjoint (values_of pairs) (hidden_channels p) →
        CapturesNone (keys_of pairs) (renaming_of pairs) p }
{}

/// Equal protocols of an interface may be used at a place under pairs that give each channel of the
/// interface a name: these names are distinct, none is hidden in either protocol, and each is
/// visible at the place with the width of its channel.
pub fn use_at_place()
    ensures { (sig : Signature) (i : Interface) (pairs : List (Channel × Channel)) →
        let ports = i.inputs ++ i.outputs in
        let f = renaming_of pairs in
        IsWithin (port_names ports) (keys_of pairs) → IsDistinct same_channel (values_of pairs) →
        (old new : Protocol) → AreDisjoint (values_of pairs) (hidden_channels old) →
        AreDisjoint (values_of pairs) (hidden_channels new) →
        Equal sig (scope_of ports) (port_names i.outputs) old new →
        (scope : Scope) (written : List Channel) (p q : Protocol) (place : List ℕ) →
        let whole = protocol_term p in
        Typed sig scope p written → term_at whole place ≡ Some (protocol_term (renamed f old)) →
        term_with whole place (protocol_term (renamed f new)) ≡ protocol_term q →
        ((c : Channel) (w : ℕ) → scope_of ports c ≡ Some w →
        (around (outermost scope) whole place).scope (f c) ≡ Some w) →
        Equal sig scope written p q }
{}
