//! How two protocols are told apart: by one history, in one context, that comes on another number
//! of tapes.

ghost use Rattle.std.specs.Prelude.{◌≢◌, ◌++◌, ◌≤◌, ℕ, List};
ghost use Rattle.ipdl_laws.specs.Refutations.{AreToldApart, closed_interface};
ghost use Rattle.ipdl_term.specs.Contexts.{Closes, plugged};
ghost use Rattle.ipdl_term.specs.Counts.{History, history_count};
ghost use Rattle.ipdl_term.specs.Interpretations.{Interpretation, Interprets, Signature};
ghost use Rattle.ipdl_term.specs.Protocols.{coins};
ghost use Rattle.ipdl_term.specs.Terms.{Context, Protocol};
ghost use Rattle.ipdl_term.specs.Typing.{HasInterface, port_names, scope_of};
ghost use Rattle.ipdl_term.specs.declared.interface.Interface.{Interface};
ghost use Rattle.ipdl_term.specs.declared.interface.Port.{Port};

/// Two protocols that are typed at one interface are told apart there if, in some context that
/// closes it, a history comes on more of the tapes with one than with the other.
pub fn told_apart_by_counts()
    ensures { (sig : Signature) (J : Interpretation) → Interprets sig J → (i : Interface) (p q : Protocol) →
        HasInterface sig i p → HasInterface sig i q → (C : Context) →
        Closes sig (scope_of (i.inputs ++ i.outputs)) (port_names i.outputs) C →
        (n : ℕ) → coins (plugged C p) ≤ n → coins (plugged C q) ≤ n →
        (h : History) → history_count J (plugged C p) n h ≢ history_count J (plugged C q) n h →
        AreToldApart sig i p q }
{}

/// Two that have no inputs need no context.
pub fn told_apart_without_inputs()
    ensures { (sig : Signature) (J : Interpretation) → Interprets sig J → (outs : List Port) (p q : Protocol) →
        HasInterface sig (closed_interface outs) p → HasInterface sig (closed_interface outs) q →
        (n : ℕ) → coins p ≤ n → coins q ≤ n →
        (h : History) → history_count J p n h ≢ history_count J q n h →
        AreToldApart sig (closed_interface outs) p q }
{}
