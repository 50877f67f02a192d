//! Renamings of what is in a context, one renaming after another, and renamings that change nothing.

ghost use Rattle.std.specs.Prelude.{◌≡◌, List, [], true};
ghost use Rattle.ipdl_embed.specs.Completing.{completed};
ghost use Rattle.ipdl_embed.specs.Pairs.{named};
ghost use Rattle.ipdl_term.specs.Channels.{AreDisjoint, free_channels, has};
ghost use Rattle.ipdl_term.specs.Contexts.{plugged};
ghost use Rattle.ipdl_term.specs.Renaming.{CapturesNone, Renaming, hidden_around, hidden_channels, renamed, renamed_context, renaming_at, renaming_of};
ghost use Rattle.ipdl_term.specs.Terms.{Channel, Context, Protocol};
ghost use Rattle.ipdl_term.specs.declared.interface.Interface.{Interface};

/// What is in a context is renamed by what the renaming is at the hole.
pub fn renamed_in_context()
    ensures { (f : Renaming) (C : Context) (p : Protocol) →
        renamed f (plugged C p) ≡ plugged (renamed_context f C) (renamed (renaming_at C f) p) }
{}

/// Two renamings, of which the first captures none of the free channels, are one.
pub fn renamed_twice()
    ensures { (g h : Renaming) (p : Protocol) → CapturesNone (free_channels p) g p →
        renamed h (renamed g p) ≡ renamed (λ c. h (g c)) p }
{}

/// Renamings that agree on the free channels give the same protocol.
pub fn renamed_alike()
    ensures { (f g : Renaming) (p : Protocol) →
        ((c : Channel) → has (free_channels p) c ≡ true → f c ≡ g c) →
        renamed f p ≡ renamed g p }
{}

/// Where each channel keeps its name the protocol is the same.
pub fn renamed_by_own_names()
    ensures same { (f : Renaming) (p : Protocol) → ((c : Channel) → f c ≡ c) → renamed f p ≡ p }
    ensures context { (f : Renaming) (C : Context) → ((c : Channel) → f c ≡ c) →
        renamed_context f C ≡ C }
    ensures named { (cs : List Channel) (p : Protocol) →
        renamed (renaming_of (named (λ c. c) cs)) p ≡ p }
    ensures completed { (i : Interface) (p : Protocol) →
        renamed (renaming_of (completed i [])) p ≡ p }
{}

/// Hidden channels keep their names.
pub fn hidden_channels_of_renamed()
    ensures protocol { (f : Renaming) (p : Protocol) →
        hidden_channels (renamed f p) ≡ hidden_channels p }
    ensures context { (f : Renaming) (C : Context) →
        hidden_around (renamed_context f C) ≡ hidden_around C }
{}

/// Names of which none is hidden in a protocol in a context are hidden neither in that protocol nor
/// around the hole.
pub fn hidden_in_part()
    ensures { (cs : List Channel) (C : Context) (p : Protocol) →
        AreDisjoint cs (hidden_channels (plugged C p)) →
        AreDisjoint cs (hidden_channels p) × AreDisjoint cs (hidden_around C) }
{}
