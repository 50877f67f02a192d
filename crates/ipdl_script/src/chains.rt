//! Laws of chains: which theorem has one, what is told where it has none, and what the neighbours
//! of a chain are to each other.

ghost use Rattle.std.specs.Prelude.{◌≡◌, ◌↔◌, ℕ, None, Some};
ghost use Rattle.ipdl_chain.specs.Chains.{Chain, last_of};
ghost use Rattle.ipdl_rules_r.specs.Tables.{TablesAreWhole};
ghost use Rattle.ipdl_script.specs.Meanings.{LemmasMean};
ghost use Rattle.ipdl_script.specs.Scripts.{IsChain, IsFirstWrong, Theorem, Wrong, chain_of_scripts, first_wrong};
ghost use Rattle.ipdl_script.specs.Steps.{Setting, assumed_in};
ghost use Rattle.ipdl_term.specs.Typing.{HasInterface};
ghost use Rattle.ipdl_uses.specs.Meanings.{ChainMeans};

/// A theorem has a chain exactly where nothing is wrong, and then this one.
pub fn chain_exactly()
    ensures { (x : Setting) (so_far : ℕ) (t : Theorem) (chain : Chain) →
        IsChain x so_far t chain ↔
        ((first_wrong x so_far t ≡ None) × (chain_of_scripts x t ≡ chain)) }
{}

/// A theorem has one chain at most.
pub fn one_chain()
    ensures { (x : Setting) (so_far : ℕ) (t : Theorem) (chain other : Chain) →
        IsChain x so_far t chain → IsChain x so_far t other → chain ≡ other }
{}

/// What is told to be wrong is what is wrong first: all steps before it stand, and the differing
/// place is the first one.
pub fn wrong_is_first()
    ensures { (x : Setting) (so_far : ℕ) (t : Theorem) (wrong : Wrong) →
        (first_wrong x so_far t ≡ Some wrong) ↔ IsFirstWrong x so_far t wrong }
{}

/// A chain leads from the left protocol to the right one.
pub fn chain_leads_across()
    ensures { (x : Setting) (so_far : ℕ) (t : Theorem) (chain : Chain) → IsChain x so_far t chain →
        (chain.first ≡ t.left) × (last_of chain.first chain.links ≡ t.right) }
{}

/// A chain between protocols of the interface means what it says, where each table has a value for
/// each argument and all that may be used means what it says: its terms have the interface, each two
/// neighbours are what their mark says, and equal where the assumptions that it counts are true.
pub fn chain_means()
    ensures { (x : Setting) → TablesAreWhole x.sig → LemmasMean x →
        (so_far : ℕ) (t : Theorem) (chain : Chain) → IsChain x so_far t chain →
        HasInterface x.sig x.interface t.left → HasInterface x.sig x.interface t.right →
        ChainMeans x.sig x.interface (assumed_in x) chain }
{}
