//! Renamed, nested and plugged terms have no further symbols, and each of their variables has its
//! binder.

ghost use Rattle.std.specs.Prelude.{◌≡◌, ℕ, List, Some};
ghost use Rattle.ipdl_term.specs.Contexts.{nested, plugged};
ghost use Rattle.ipdl_term.specs.Places.{context_at};
ghost use Rattle.ipdl_term.specs.Renaming.{Renaming, renamed, renamed_context};
ghost use Rattle.ipdl_term.specs.Terms.{Context, Protocol};
ghost use Rattle.ipdl_term.specs.Within.{IsContextWithin, IsProtocolWithin};

/// A renamed protocol, and a renamed context.
pub fn renamed_is_within()
    ensures protocol { (n : ℕ) (f : Renaming) (p : Protocol) →
        IsProtocolWithin n p → IsProtocolWithin n (renamed f p) }
    ensures context { (n : ℕ) (f : Renaming) (C : Context) →
        IsContextWithin n C → IsContextWithin n (renamed_context f C) }
{}

/// A context in a context.
pub fn nested_is_within()
    ensures { (n : ℕ) (C E : Context) →
        IsContextWithin n C → IsContextWithin n E → IsContextWithin n (nested C E) }
{}

/// A protocol in a context; and where that is within the bounds so are the two.
pub fn plugged_is_within()
    ensures whole { (n : ℕ) (C : Context) (p : Protocol) →
        IsContextWithin n C → IsProtocolWithin n p → IsProtocolWithin n (plugged C p) }
    ensures parts { (n : ℕ) (C : Context) (p : Protocol) → IsProtocolWithin n (plugged C p) →
        IsContextWithin n C × IsProtocolWithin n p }
{}

/// The context around a place.
pub fn context_at_place_is_within()
    ensures { (n : ℕ) (p : Protocol) (place : List ℕ) (C : Context) →
        context_at p place ≡ Some C → IsProtocolWithin n p → IsContextWithin n C }
{}
