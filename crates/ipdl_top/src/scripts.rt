//! Theorems by their scripts: the chains of those that are proved.

ghost use Rattle.std.specs.Prelude.{◌≡◌, ◌+◌, ◌≤◌, ◌++◌, All, IfOk, OnOk, map, length};
ghost use Rattle.ipdl_base.specs.Limits.{limit_number};
ghost use Rattle.ipdl_chain.specs.ChainTexts.{assumptions_in};
ghost use Rattle.ipdl_script.specs.Ready.{IsReady, neighbours_in};
ghost use Rattle.ipdl_script.specs.Views.{proved_of};
ghost use Rattle.ipdl_forms.specs.Documents.{entry_of, document_of};
ghost use Rattle.ipdl_forms.specs.Items.{SpellsDocument};
ghost use Rattle.ipdl_forms.specs.Limits.{IsWithinLimits};
ghost use Rattle.ipdl_tree.specs.Trees.{Located};
ghost use Rattle.ipdl_top.specs.Chains.{claim_neighbours, claim_text, item_neighbours, item_text, proved_by, proved_text, theorem_count, theorems_with};
ghost use Rattle.ipdl_top.specs.Books.{held_claim, IsReadyItem};
ghost use Rattle.ipdl_top.specs.Scripts.{claim_refusal, theorem_refusal, script_refusal};
ghost use Rattle.ipdl_top.specs.Told.{Tests};
ghost use Rattle.ipdl_top.specs.Typed.{IsTypedDocument};
ghost use Rattle.ipdl_uses.specs.Views.{IsKept};

use crate::refusal::{Stop, over_at_theorem};
use crate::wrong::script_stop;
use ipdl_base::Limit;
use ipdl_chain::{push_accepted_line, push_chain};
use ipdl_forms::{Document, Item, TheoremItem};
use ipdl_script::{Book, check_theorem};
use std::alloc::Global;

// ---- theorems

// Checks the scripts of a theorem, and adds its chain and the text of the chain: how many
// neighbours it has.
fn add_chain(
    alloc: Global,
    text: &mut Vec<u8>,
    book: &mut Book<'_>,
    theorem: &TheoremItem,
) -> Result<u64, Stop>
    requires { IsReady book.old theorem.now }
    ensures tests { Tests result (claim_refusal book.old.document.now.sig (assumptions_in (document_of book.old.document.now).entries)
        (neighbours_in book.old.chains) (length text.old.items) (held_claim book.old theorem.now)) }
    ensures text { OnOk result (text.new.items ≡ text.old.items
        ++ claim_text book.old.document.now.sig (assumptions_in (document_of book.old.document.now).entries) (held_claim book.old theorem.now)) }
    ensures count { IfOk result (λ count. count ≡ claim_neighbours (held_claim book.old theorem.now)) }
    ensures neighbours { IfOk result (λ count. neighbours_in book.new.chains ≡ neighbours_in book.old.chains + count) }
    ensures short { IfOk result (λ count. neighbours_in book.old.chains + count ≤ limit_number Limit.Chain) }
    ensures theorems { OnOk result (map proved_of book.new.chains ≡ map proved_of book.old.chains ++ proved_by (held_claim book.old theorem.now)) }
    ensures kept { OnOk result (All (IsKept (length book.old.document.now.sig)) book.new.chains) }
    ensures document { book.new.document.now ≡ book.old.document.now }
{
    let chain = match check_theorem(alloc, book, theorem) {
        Ok(chain) => chain,
        Err(fault) => return Err(script_stop(alloc, &book.document.sig, theorem, fault)),
    };
    push_chain(text, book.document, &chain)?;
    let limit = Limit::Output;
    if text.len() as u64 > limit.number() {
        return Err(over_at_theorem(alloc, limit, limit.number(), &theorem.name));
    }
    let count = chain.neighbours();
    book.add(chain)?;
    Ok(count)
}

// Checks an item that is a theorem, and adds its chain and the text of the chain: how many
// neighbours it has.
fn add_item(
    alloc: Global,
    text: &mut Vec<u8>,
    book: &mut Book<'_>,
    item: &Item,
) -> Result<u64, Stop>
    requires ready { IsReadyItem book.old item.now }
    requires short { neighbours_in book.old.chains ≤ limit_number Limit.Chain }
    requires kept { All (IsKept (length book.old.document.now.sig)) book.old.chains }
    ensures tests { Tests result (theorem_refusal book.old.document.now.sig (document_of book.old.document.now).entries (map proved_of book.old.chains)
        (neighbours_in book.old.chains) (length text.old.items) (entry_of book.old.document.now.sig item.now)) }
    ensures text { OnOk result (text.new.items ≡ text.old.items
        ++ item_text book.old.document.now.sig (document_of book.old.document.now).entries (map proved_of book.old.chains) (entry_of book.old.document.now.sig item.now)) }
    ensures count { IfOk result (λ count. count ≡ item_neighbours book.old.document.now.sig (document_of book.old.document.now).entries (map proved_of book.old.chains) (entry_of book.old.document.now.sig item.now)) }
    ensures neighbours { IfOk result (λ count. neighbours_in book.new.chains ≡ neighbours_in book.old.chains + count) }
    ensures short { IfOk result (λ count. neighbours_in book.old.chains + count ≤ limit_number Limit.Chain) }
    ensures theorems { OnOk result (map proved_of book.new.chains ≡ theorems_with book.old.document.now.sig (document_of book.old.document.now).entries (map proved_of book.old.chains) (entry_of book.old.document.now.sig item.now)) }
    ensures kept { OnOk result (All (IsKept (length book.old.document.now.sig)) book.new.chains) }
    ensures document { book.new.document.now ≡ book.old.document.now }
{
    match item {
        Item::Theorem(theorem) => add_chain(alloc, text, book, theorem),
        _ => Ok(0),
    }
}

fn theorem_count(document: &Document) -> u64
    ensures { result ≡ theorem_count (document_of document.now).entries }
{
    let mut count = 0;
    for item in document.items.as_slice() {
        if let Item::Theorem(_) = item {
            count += 1;
        }
    }
    count
}

// The chains of a document and the last line, or the first test of a theorem that fails.
pub(crate) fn proved_text(alloc: Global, document: &Document) -> Result<Vec<u8>, Stop>
    requires spelled { (t : Located) × SpellsDocument (document_of document.now) t }
    requires within { IsWithinLimits (document_of document.now) }
    requires typed { IsTypedDocument (document_of document.now) }
    ensures tests { Tests result (script_refusal (document_of document.now)) }
    ensures text { IfOk result (λ text. text.items ≡ proved_text (document_of document.now)) }
{
    let mut text = Vec::new(alloc);
    let mut book = Book::new(alloc, document);
    let mut neighbours = 0;
    for item in document.items.as_slice() {
        neighbours += add_item(alloc, &mut text, &mut book, item)?;
    }
    push_accepted_line(&mut text, theorem_count(document), neighbours)?;
    Ok(text)
}
