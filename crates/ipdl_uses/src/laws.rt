//! Laws of uses: when something may be used, and what the neighbours mean that it gives.

ghost use Rattle.std.specs.Prelude.{◌≡◌, ◌↔◌, ◌++◌, ℕ, List, None, Option, Some, true};
ghost use Rattle.ipdl_chain.specs.Chains.{Chain};
ghost use Rattle.ipdl_embed.specs.Completing.{completed};
ghost use Rattle.ipdl_embed.specs.Pairs.{Pairs};
ghost use Rattle.ipdl_term.specs.Interpretations.{Signature};
ghost use Rattle.ipdl_term.specs.Places.{context_at, term_at};
ghost use Rattle.ipdl_term.specs.Steps.{Direction};
ghost use Rattle.ipdl_term.specs.Surroundings.{around, outermost};
ghost use Rattle.ipdl_term.specs.Terms.{Context, Protocol, protocol_term};
ghost use Rattle.ipdl_term.specs.Typing.{HasInterface, Scope, scope_of};
ghost use Rattle.ipdl_term.specs.declared.interface.Interface.{Interface};
ghost use Rattle.ipdl_uses.specs.Lemmas.{Lemma, assumed_chain, is_exact, left_of, right_of};
ghost use Rattle.ipdl_uses.specs.Meanings.{AreEqualAt, AreTrue, AreTypedSides, ChainMeans, Sides};
ghost use Rattle.ipdl_uses.specs.Usable.{IsUsable, use_refusal};
ghost use Rattle.ipdl_uses.specs.Uses.{used};

/// Something may be used at a place exactly where no test refuses it.
pub fn usable_exactly()
    ensures { (lemma : Lemma) (direction : Direction) (part : Protocol) (scope : Scope) (pairs : Pairs) →
        IsUsable lemma direction part scope pairs ↔
        (use_refusal lemma direction (Some part) scope pairs ≡ None) }
{}

/// The chain of an assumption between two protocols of its interface means what it says.
pub fn assumption_means()
    ensures { (sig : Signature) (assumed : List ℕ → Option Sides) (name : List ℕ) (sides : Sides) →
        assumed name ≡ Some sides → AreTypedSides sig sides →
        ChainMeans sig sides.interface assumed (assumed_chain name sides.interface sides.left sides.right) }
{}

/// The ends of a chain that means what it says are equal where it counts no assumption, and where
/// those that it counts are true.
pub fn ends_are_equal()
    ensures exact { (sig : Signature) (assumed : List ℕ → Option Sides) (i : Interface) (chain : Chain) →
        ChainMeans sig i assumed chain → is_exact chain ≡ true →
        AreEqualAt sig i (left_of chain) (right_of chain) }
    ensures counted { (sig : Signature) (assumed : List ℕ → Option Sides) (i : Interface) (chain : Chain) →
        ChainMeans sig i assumed chain → AreTrue sig assumed chain.links →
        AreEqualAt sig i (left_of chain) (right_of chain) }
{}

/// Where a chain means what it says, and may be used at a place of a protocol of another interface,
/// so does the chain that it gives there, which begins at that protocol.
pub fn used_means()
    ensures { (sig : Signature) (assumed : List ℕ → Option Sides) (i : Interface) (before : Protocol) →
        HasInterface sig i before →
        (place name : List ℕ) (part : Protocol) (C : Context) →
        term_at (protocol_term before) place ≡ Some (protocol_term part) → context_at before place ≡ Some C →
        (lemma : Lemma) → ChainMeans sig lemma.interface assumed lemma.chain →
        (direction : Direction) (pairs : Pairs) →
        IsUsable lemma direction part (around (outermost (scope_of (i.inputs ++ i.outputs))) (protocol_term before) place).scope pairs →
        let chain = used direction (record { name = name; place = place; around = C; pairs = completed lemma.interface pairs }) lemma.chain in
        ChainMeans sig i assumed chain × (chain.first ≡ before) }
{}
