//! Laws of chains, of their counts and of their texts. Each is a function that does nothing and has
//! the law as its contract, so that the check proves it.

ghost use Rattle.std.specs.Prelude.{◌≡◌, ℕ, ◌+◌, List, [], ◌∷◌, ◌++◌, codes, length, map, true};
ghost use Rattle.ipdl_chain.specs.Chains.{Link, assumed_count, by_assumption, by_rule, by_theorem, exact_count, last_of, neighbour_count, terms_of, turned_links};
ghost use Rattle.ipdl_chain.specs.ChainTexts.{chain_text, links_text};
ghost use Rattle.ipdl_chain.specs.declared.chain.Chain.{Chain as Held};
ghost use Rattle.ipdl_chain.specs.Views.{HasOneTermMore, chain_of, mark_of};
ghost use Rattle.ipdl_chain.specs.Worked.{bit_assignment, worked_chain, worked_uses};
ghost use Rattle.ipdl_sig.specs.declared.symbol.Symbol.{Symbol};
ghost use Rattle.ipdl_term.specs.Steps.{lr, rl};
ghost use Rattle.ipdl_term.specs.Terms.{Protocol, hole, in_right};
ghost use Rattle.ipdl_term.specs.Views.{protocol_of};

/// Each neighbour is exact or an assumption.
pub fn counts_add_up()
    ensures { (links : List Link) →
        neighbour_count links ≡ exact_count links + assumed_count links }
{}

/// Links that are turned round lead back to the term that they began at, and turned round once more
/// they are the links.
pub fn turned_twice()
    ensures { (first : Protocol) (links : List Link) →
        let last = last_of first links in
        let turned = turned_links first links in
        (last_of last turned ≡ first) × (turned_links last turned ≡ links) }
{}

/// A chain with one term more than marks is seen as all of its terms and all of its marks.
pub fn seen_whole()
    ensures { (chain : Held) → HasOneTermMore chain →
        (terms_of (chain_of chain) ≡ map protocol_of chain.terms) ×
        (map (λ (link : Link). link.mark) (chain_of chain).links ≡ map mark_of chain.marks) }
{}

/// The text of some links and those after them is the one text after the other, with the numbers
/// going on.
pub fn links_follow_links()
    ensures { (symbols : List Symbol) (number : ℕ) (links later : List Link) →
        links_text symbols number (links ++ later) ≡
        links_text symbols number links ++ links_text symbols (number + length links) later }
{}

/// The worked chain: its text, and its link turned round, computed from the definitions.
pub fn worked_example()
    ensures printed { chain_text [] [] (codes "t") (codes "A") (codes "B") worked_chain ≡
        codes "theorem t A B\n0 (par (out a (ret #0)) (out b (ret #1)))\nby rule lr comm ()\n1 (par (out b (ret #1)) (out a (ret #0)))\nexact 1 assumed 0\n" }
    ensures turned { turned_links worked_chain.first worked_chain.links ≡
        record { mark = by_rule rl (codes "comm") []; term = worked_chain.first } ∷ [] }
{}

/// The worked chain of a theorem and an assumption: its text, and that the marks of its links turned
/// round go in the other directions.
pub fn worked_uses_example()
    ensures printed { chain_text [] (codes "other" ∷ codes "same" ∷ []) (codes "t") (codes "A") (codes "B") worked_uses ≡
        codes "theorem t A B\n0 (par (out a (ret #0)) (out b (ret #1)))\nby theorem lr swap () ((x a) (y b))\n1 (par (out b (ret #1)) (out a (ret #0)))\nby assume rl same (1) ((x a)) (par (out b (ret #1)) (hole))\n2 (par (out b (ret #1)) (out a (ret #1)))\nexact 1 assumed 1\nassume same 1\n" }
    ensures turned { map (λ (link : Link). link.mark) (turned_links worked_uses.first worked_uses.links) ≡
        by_assumption lr (codes "same") (1 ∷ []) ((codes "x", codes "a") ∷ []) (in_right (bit_assignment (codes "b") true) hole)
        ∷ by_theorem rl (codes "swap") [] ((codes "x", codes "a") ∷ (codes "y", codes "b") ∷ []) ∷ [] }
{}
