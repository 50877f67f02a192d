//! What a shown protocol and the text of a whole document are read back as.

ghost use Rattle.std.specs.Prelude.{◌≡◌, List, [], None, Some};
ghost use Rattle.ipdl_forms.specs.Documents.{Document};
ghost use Rattle.ipdl_forms.specs.Items.{SpellsDocument, document_faults};
ghost use Rattle.ipdl_forms.specs.Protocols.{SpellsProtocol, protocol_faults};
ghost use Rattle.ipdl_printing.specs.Printing.{protocol_tree};
ghost use Rattle.ipdl_roundtrip.specs.Shown.{IsShowable, shown_scope};
ghost use Rattle.ipdl_roundtrip.specs.ShownDocuments.{IsShowableDocument, document_tree};
ghost use Rattle.ipdl_sig.specs.declared.symbol.Symbol.{Symbol};
ghost use Rattle.ipdl_term.specs.Terms.{Protocol};
ghost use Rattle.ipdl_tree.specs.Refusals.{refusal};
ghost use Rattle.ipdl_tree.specs.Spelling.{SpellsSource, tree_text};
ghost use Rattle.ipdl_tree.specs.Trees.{Located, without_offsets};
ghost use Rattle.ipdl_tree.specs.WellFormed.{IsWellFormed};

use ipdl_forms::{document_is_read, offsets_are_free, one_document, one_term, spelled_is_clean};
use ipdl_printing::{printed_tree_depth, printed_tree_has_no_offsets};
use ipdl_tree::{one_tree, written_is_read};

/// The text that shows a protocol has no refusal as a tree, and the tree that is read of it is the
/// one that it shows, but for the offsets. Whoever shows a protocol knows that its tree is well
/// formed.
pub fn shown_is_read()
    ensures { (symbols : List Symbol) (p : Protocol) → IsShowable symbols p →
        IsWellFormed (protocol_tree symbols p) →
        (refusal (tree_text (protocol_tree symbols p)) ≡ None) ×
        ((t : Located) × SpellsSource t (tree_text (protocol_tree symbols p)) ×
        (without_offsets t ≡ protocol_tree symbols p)) }
{
    written_is_read();
    printed_tree_depth();
    printed_tree_has_no_offsets();
}

/// What a shown protocol is read back as: each tree that its text spells is the shown one but for
/// the offsets; and each such tree spells the protocol, where all symbols may be named and no
/// binder is around, spells no other protocol there, and fails no test.
pub fn shown_is_read_back()
    ensures text { (symbols : List Symbol) (p : Protocol) → IsShowable symbols p →
        IsWellFormed (protocol_tree symbols p) → (t : Located) →
        SpellsSource t (tree_text (protocol_tree symbols p)) →
        without_offsets t ≡ without_offsets (protocol_tree symbols p) }
    ensures spelled { (symbols : List Symbol) (p : Protocol) → IsShowable symbols p →
        (t : Located) → without_offsets t ≡ without_offsets (protocol_tree symbols p) →
        SpellsProtocol (shown_scope symbols) p t }
    ensures alone { (symbols : List Symbol) (p : Protocol) → IsShowable symbols p →
        (t : Located) → without_offsets t ≡ without_offsets (protocol_tree symbols p) →
        (q : Protocol) → SpellsProtocol (shown_scope symbols) q t → q ≡ p }
    ensures clean { (symbols : List Symbol) (p : Protocol) → IsShowable symbols p →
        (t : Located) → without_offsets t ≡ without_offsets (protocol_tree symbols p) →
        protocol_faults (shown_scope symbols) (Some 0) t ≡ [] }
{
    shown_is_read();
    one_tree();
    printed_tree_has_no_offsets();
    offsets_are_free();
    one_term();
    spelled_is_clean();
}

/// The text of a whole document, `(ipdl 1 ITEM ..)`, has no refusal as a tree, and each tree that it
/// spells spells the document.
pub fn shown_document_is_read()
    ensures read { (d : Document) → IsShowableDocument d →
        refusal (tree_text (document_tree d)) ≡ None }
    ensures spelled { (d : Document) → IsShowableDocument d → (t : Located) →
        SpellsSource t (tree_text (document_tree d)) → SpellsDocument d t }
{
    written_is_read();
    one_tree();
    offsets_are_free();
}

/// Each tree that the text of a whole document spells spells no other document, and no test fails
/// at it: what reads the text gets the document.
pub fn shown_document_is_read_back()
    ensures alone { (d : Document) → IsShowableDocument d → (t : Located) →
        SpellsSource t (tree_text (document_tree d)) → (e : Document) → SpellsDocument e t → e ≡ d }
    ensures clean { (d : Document) → IsShowableDocument d → (t : Located) →
        SpellsSource t (tree_text (document_tree d)) → document_faults t ≡ [] }
{
    shown_document_is_read();
    one_document();
    document_is_read();
}
