//! Equality is not trivial: each signature has an interpretation, each interface a closing context,
//! and there are typed protocols that are not equal.

ghost use Rattle.std.specs.Prelude.{◌≡◌, ◌≢◌, ◌++◌, ◌≤◌, ℕ, List, [], Bool, true, Some, is_some};
ghost use Rattle.ipdl_laws.specs.Alike.{FitsScope};
ghost use Rattle.ipdl_laws.specs.Closings.{Feed, TablesHaveWidths, fed_interface, feeding_all, silent_feed, zero_feed, zero_interpretation};
ghost use Rattle.ipdl_laws.specs.FixedInputs.{a_and_b, all_empty, at_once, empty_values, fed_back, in_turn};
ghost use Rattle.ipdl_term.specs.Channels.{has};
ghost use Rattle.ipdl_term.specs.Contexts.{Closes, plugged};
ghost use Rattle.ipdl_term.specs.Counts.{history_count, total};
ghost use Rattle.ipdl_term.specs.Equality.{Equal};
ghost use Rattle.ipdl_term.specs.Interpretations.{Interpretation, Interprets, Signature};
ghost use Rattle.ipdl_term.specs.Protocols.{protocol_valuation};
ghost use Rattle.ipdl_term.specs.Terms.{Channel, Value, assignment, literal, returning};
ghost use Rattle.ipdl_term.specs.Typing.{GivesWidth, Scope, Typed, port_names, scope_of};
ghost use Rattle.ipdl_term.specs.Valuations.{Valuation};
ghost use Rattle.ipdl_term.specs.declared.interface.Interface.{Interface};

/// A signature has an interpretation where the values of its tables have their widths, as those of
/// every signature of well-formed symbols have.
pub fn signature_has_interpretation()
    ensures { (sig : Signature) → TablesHaveWidths sig → Interprets sig (zero_interpretation sig) }
{}

/// And only there.
pub fn interpreted_tables_have_widths()
    ensures { (sig : Signature) (J : Interpretation) → Interprets sig J → TablesHaveWidths sig }
{}

/// Each scope of finitely many channels, among them those that are written, has a context that
/// closes it, whatever typed reactions write the channels that the hole does not.
pub fn finite_scope_is_closed()
    ensures { (sig : Signature) (scope : Scope) (written : List Channel) (feed : Feed) →
        ((c : Channel) (w : ℕ) → scope c ≡ Some w → GivesWidth sig scope [] (feed c w) w) →
        (channels : List Channel) →
        ((c : Channel) → is_some (scope c) ≡ true → has channels c ≡ true) →
        ((c : Channel) → has written c ≡ true → is_some (scope c) ≡ true) →
        Closes sig scope written (feeding_all feed channels scope written) }
{}

/// Each interface is closed by the context that writes zeros on its inputs.
pub fn interface_is_closed_by_zeros()
    ensures { (sig : Signature) (i : Interface) →
        Closes sig (scope_of (i.inputs ++ i.outputs)) (port_names i.outputs) (fed_interface zero_feed i) }
{}

/// And by the one that never writes its inputs.
pub fn interface_is_closed_by_silence()
    ensures { (sig : Signature) (i : Interface) →
        Closes sig (scope_of (i.inputs ++ i.outputs)) (port_names i.outputs) (fed_interface silent_feed i) }
{}

/// Two different constants on one channel are not equal, at any interface.
pub fn different_constants_are_not_equal()
    ensures { (sig : Signature) → TablesHaveWidths sig → (i : Interface) (c : Channel) (v u : Value) →
        v ≢ u → Equal sig (scope_of (i.inputs ++ i.outputs)) (port_names i.outputs)
        (assignment c (returning (literal v))) (assignment c (returning (literal u))) → ⊥ }
{}

/// The two protocols that differ in how b follows a are typed at one interface.
pub fn fixed_inputs_are_typed()
    ensures { Typed [] empty_values in_turn a_and_b × Typed [] empty_values at_once a_and_b }
{}

/// For each fixed valuation of the input, of its width, each weight of what is written has the same
/// total over the tapes of both: in particular each history comes equally often.
pub fn fixed_inputs_agree()
    ensures { (inputs : Valuation) → FitsScope empty_values inputs →
        (weight : Valuation → ℕ) (n : ℕ) → 1 ≤ n →
        total n (λ tape. weight (protocol_valuation [] in_turn tape inputs)) ≡
        total n (λ tape. weight (protocol_valuation [] at_once tape inputs)) }
{}

/// The context that feeds a back into the input closes their interface. In it one tape of one bit
/// has all three channels written with the one protocol, and none with the other.
pub fn feeding_back_tells_apart()
    ensures { Closes [] empty_values a_and_b fed_back ×
        (history_count [] (plugged fed_back in_turn) 1 all_empty ≡ 1) ×
        (history_count [] (plugged fed_back at_once) 1 all_empty ≡ 0) }
{}

/// So the two are not equal.
pub fn fixed_inputs_do_not_suffice()
    ensures { Equal [] empty_values a_and_b in_turn at_once → ⊥ }
{}
