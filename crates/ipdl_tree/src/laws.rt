//! Laws over the spelling and the refusal of sources, each the contract of a function that does nothing.
ghost use Rattle.std.specs.Prelude.{◌≡◌, ◌↔◌, ℕ, List, Some, None};
ghost use Rattle.ipdl_tree.specs.Trees.{Located, without_offsets, IsShallow};
ghost use Rattle.ipdl_tree.specs.Refusals.{Cause, refusal, IsSpelled, IsRefusedAt};
ghost use Rattle.ipdl_tree.specs.Spelling.{SpellsSource, tree_text};
ghost use Rattle.ipdl_tree.specs.WellFormed.{IsWellFormed};

/// Bytes spell one tree at most, with one offset for each part.
pub fn one_tree()
    ensures { (t u : Located) (bytes : List ℕ) → SpellsSource t bytes → SpellsSource u bytes → t ≡ u }
{}

/// Bytes have no refusal exactly where they spell a tree that is not too deep.
pub fn refused_where_no_tree()
    ensures { (bytes : List ℕ) → (refusal bytes ≡ None) ↔ IsSpelled bytes }
{}

/// Bytes are refused at the first character with which no spelled source goes on: the refusal
/// stands there, and no other offset is like that.
pub fn refused_where_stuck()
    ensures stuck { (bytes : List ℕ) (n : ℕ) (cause : Cause) → refusal bytes ≡ Some (n, cause) → IsRefusedAt bytes n }
    ensures one_offset { (bytes : List ℕ) (n m : ℕ) → IsRefusedAt bytes n → IsRefusedAt bytes m → n ≡ m }
{}

/// The spelling that is written of a tree has no refusal, and it spells that tree, but for the
/// offsets.
pub fn written_is_read()
    ensures { (t : Located) → IsWellFormed t → IsShallow t
        → (refusal (tree_text t) ≡ None) × ((u : Located) × SpellsSource u (tree_text t) × (without_offsets u ≡ without_offsets t)) }
{}
