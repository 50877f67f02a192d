//! Laws about the definitions: each function does nothing, and its contract is the law.

ghost use Rattle.std.specs.Prelude.{◌≡◌, ◌↔◌, ℕ, List, Option, None, Some, [], ◌∷◌, codes, slice_get};
ghost use Rattle.ipdl_script.specs.Scripts.{right_side};
ghost use Rattle.ipdl_script.specs.Steps.{no_variable};
ghost use Rattle.ipdl_tree.specs.Spelling.{tree_text};
ghost use Rattle.ipdl_tree.specs.Trees.{Located};
ghost use Rattle.ipdl_forms.specs.Documents.{Document, Entry};
ghost use Rattle.ipdl_forms.specs.Items.{SpellsDocument};
ghost use Rattle.ipdl_forms.specs.Limits.{IsWithinLimits};
ghost use Rattle.ipdl_top.specs.Chains.{proved_text};
ghost use Rattle.ipdl_top.specs.Examples.{worked_document, worked_tree};
ghost use Rattle.ipdl_top.specs.Lines.{ends_line};
ghost use Rattle.ipdl_top.specs.Meanings.{HasEqualSidesIfExact, HasEqualSidesIfTrue, HasMeantNeighbours, IsSoOfTheorems};
ghost use Rattle.ipdl_top.specs.Refusals.{IsFirstRefused, wrong_step};
ghost use Rattle.ipdl_top.specs.Replies.{IsReply};
ghost use Rattle.ipdl_top.specs.Requests.{Request, check, AskFor, request_in};
ghost use Rattle.ipdl_top.specs.Runs.{IsAnswered};
ghost use Rattle.ipdl_top.specs.Scripts.{judged_by_script, script_refusal, IsProvedDocument, HasShortChains};
ghost use Rattle.ipdl_top.specs.Statuses.{Refusal, Reply};
ghost use Rattle.ipdl_top.specs.Summaries.{summary_text};
ghost use Rattle.ipdl_top.specs.Typed.{judged_by_type, type_refusal, IsTypedDocument};

/// Words are those of one request at most, and a function finds it.
pub fn words_are_of_one_request()
    ensures { (words : List (List ℕ)) (request : Request) → (request_in words ≡ Some request) ↔ AskFor words request }
{}

/// Words and bytes have exactly one reply. So it makes no difference in what pieces the source gave
/// the bytes, or the sink took the text.
pub fn words_and_bytes_have_one_reply()
    ensures some { (words : List (List ℕ)) (bytes : List ℕ) → (reply : Reply) × IsReply words bytes reply }
    ensures one { (words : List (List ℕ)) (bytes : List ℕ) (r s : Reply) → IsReply words bytes r → IsReply words bytes s → r ≡ s }
{}

/// The item that a refusal names is the first in order that is not well typed: it is refused, and
/// none before it is. Where none is refused there is no refusal.
pub fn the_first_item_is_refused()
    ensures refused { (d : Document) (r : Refusal) → (type_refusal d ≡ Some r) ↔ IsFirstRefused (judged_by_type d) d.entries r }
    ensures none { (d : Document) → (type_refusal d ≡ None) ↔ ((index : ℕ) (item : Entry) → slice_get d.entries index ≡ Some item → judged_by_type d index item ≡ None) }
{}

/// The theorem that a refusal names is the first in order whose script does not prove it, or with
/// which the chains are too long.
pub fn the_first_theorem_is_refused()
    ensures refused { (d : Document) (r : Refusal) → (script_refusal d ≡ Some r) ↔ IsFirstRefused (judged_by_script d) d.entries r }
    ensures none { (d : Document) → (script_refusal d ≡ None) ↔ ((index : ℕ) (item : Entry) → slice_get d.entries index ≡ Some item → judged_by_script d index item ≡ None) }
{}

/// In a document whose theorems are accepted, each two neighbours of the chain of a theorem are what
/// their mark says: equal at the interface of its left protocol, or one context around the sides of
/// an assumption. Its two protocols are equal where it counts no assumption, and where those that it
/// counts are true.
pub fn chains_mean()
    ensures neighbours { (bytes : List ℕ) (t : Located) (d : Document) (text : List ℕ) → IsAnswered check bytes t d text →
        IsSoOfTheorems HasMeantNeighbours d }
    ensures exact { (bytes : List ℕ) (t : Located) (d : Document) (text : List ℕ) → IsAnswered check bytes t d text →
        IsSoOfTheorems HasEqualSidesIfExact d }
    ensures sides { (bytes : List ℕ) (t : Located) (d : Document) (text : List ℕ) → IsAnswered check bytes t d text →
        IsSoOfTheorems HasEqualSidesIfTrue d }
{}

/// The worked example, computed from the definitions.
pub fn worked_example()
    ensures written { tree_text worked_tree ≡ codes "(ipdl 1 (protocol A (inputs) (outputs (a 1) (b 1)) (par (out a (ret #0)) (out b (ret #1)))) (protocol B (inputs) (outputs (a 1) (b 1)) (par (out b (ret #1)) (out a (ret #0)))) (theorem t A B (left (comm ())) (right)))" }
    ensures spelled { SpellsDocument worked_document worked_tree }
    ensures within { IsWithinLimits worked_document }
    ensures typed { IsTypedDocument worked_document }
    ensures proved { IsProvedDocument worked_document }
    ensures short { HasShortChains worked_document }
    ensures printed { proved_text worked_document ≡ codes "theorem t A B\n0 (par (out a (ret #0)) (out b (ret #1)))\nby rule lr comm ()\n1 (par (out b (ret #1)) (out a (ret #0)))\nexact 1 assumed 0\naccepted theorems 1 neighbours 1\n" }
    ensures summed { summary_text worked_document ≡ codes "protocol A inputs 0 outputs 2 channels 2 nodes 7 coins 0\nprotocol B inputs 0 outputs 2 channels 2 nodes 7 coins 0\ntheorem t A B steps 1\ntyped items 3\n" }
    ensures wrong { (wrong_step [] (codes "t") right_side 2 (codes "rev unit") (no_variable 0)).text ≡ codes "wrong t right 2 rev unit NoVariable 0\n" }
    ensures refused { ends_line (codes "t") (0 ∷ 0 ∷ 0 ∷ []) ≡ codes "wrong t ends (0 0 0)\n" }
{}
