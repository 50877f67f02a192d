//! Pushes the texts of chains, line by line, after what is there.

ghost use Rattle.std.specs.Prelude.{◌≡◌, ◌++◌, [], ◌∷◌, IfOk, OnOk, codes, length, map};
ghost use Rattle.std.specs.Fmt.{decimal};
ghost use Rattle.ipdl_chain.specs.ChainTexts.{accepted_line, assumption_line, assumption_lines, assumptions_in, chain_text, count_line, links_text, mark_line, pair_text, renaming_text, term_line, theorem_line};
ghost use Rattle.ipdl_chain.specs.Views.{HasOneTermMore, IsMarkWithin, IsWithin, chain_of, mark_of};
ghost use Rattle.ipdl_forms.specs.Documents.{document_of};
ghost use Rattle.ipdl_forms.specs.Steps.{direction_word};
ghost use Rattle.ipdl_printing.specs.Printing.{context_tree};
ghost use Rattle.ipdl_printing.specs.Texts.{place_text, spaced};
ghost use Rattle.ipdl_term.specs.Steps.{direction_of};
ghost use Rattle.ipdl_term.specs.Views.{context_of, protocol_of};
ghost use Rattle.ipdl_term.specs.Within.{IsContextWithin, IsProtocolWithin};
ghost use Rattle.ipdl_tree.specs.Spelling.{tree_text};

use crate::chain::{Chain, Mark};
use ipdl_base::{Name, NoMemory, Path};
use ipdl_embed::SharedPairs;
use ipdl_forms::{Document, Item};
use ipdl_printing::{push_ctx, push_proto};
use ipdl_sig::Sig;
use ipdl_term::{Ctx, Dir, Proto};
use ipdl_tree::push_number;
use std::alloc::Global;

// `lr` or `rl`.
fn direction_word(dir: Dir) -> &'static str
    ensures { result.now ≡ direction_word (direction_of dir) }
{
    match dir {
        Dir::Lr => "lr",
        Dir::Rl => "rl",
    }
}

// Numbers with one blank between two neighbours.
fn push_spaced(text: &mut Vec<u8>, numbers: &[u32]) -> Result<(), NoMemory>
    ensures { OnOk result
        (text.new.items ≡ text.old.items ++ spaced (map decimal numbers.now)) }
{
    let [first, others @ ..] = numbers else {
        return Ok(());
    };
    push_number(text, u64::from(*first))?;
    for number in others {
        text.push(b' ')?;
        push_number(text, u64::from(*number))?;
    }
    Ok(())
}

// A place in parentheses, as `(0 1)`.
fn push_place(text: &mut Vec<u8>, place: &Path) -> Result<(), NoMemory>
    ensures { OnOk result (text.new.items ≡ text.old.items ++ place_text place.now) }
{
    text.push(b'(')?;
    push_spaced(text, place.parts())?;
    text.push(b')')?;
    Ok(())
}

// The line that begins the chain.
fn push_theorem(text: &mut Vec<u8>, chain: &Chain) -> Result<(), NoMemory>
    ensures { OnOk result
        (text.new.items ≡ text.old.items ++
        theorem_line chain.now.name chain.now.left chain.now.right) }
{
    text.extend_from_slice(b"theorem ")?;
    text.extend_from_slice(chain.name.text().as_bytes())?;
    text.push(b' ')?;
    text.extend_from_slice(chain.left.text().as_bytes())?;
    text.push(b' ')?;
    text.extend_from_slice(chain.right.text().as_bytes())?;
    text.push(b'\n')?;
    Ok(())
}

// A term with its number.
fn push_term(text: &mut Vec<u8>, sig: &Sig, number: u64, term: &Proto) -> Result<(), NoMemory>
    requires { IsProtocolWithin (length sig.now) (protocol_of term.now) }
    ensures { OnOk result
        (text.new.items ≡ text.old.items ++ term_line sig.now number (protocol_of term.now)) }
{
    push_number(text, number)?;
    text.push(b' ')?;
    push_proto(text, sig, term)?;
    text.push(b'\n')?;
    Ok(())
}

// A channel and its new name in parentheses, as `(a b)`.
fn push_pair(text: &mut Vec<u8>, pair: &(Name, Name)) -> Result<(), NoMemory>
    ensures { OnOk result (text.new.items ≡ text.old.items ++ pair_text pair.now) }
{
    text.push(b'(')?;
    text.extend_from_slice(pair.0.text().as_bytes())?;
    text.push(b' ')?;
    text.extend_from_slice(pair.1.text().as_bytes())?;
    text.push(b')')?;
    Ok(())
}

// Pairs with one blank between two neighbours.
fn push_spaced_pairs(text: &mut Vec<u8>, pairs: &[(Name, Name)]) -> Result<(), NoMemory>
    ensures { OnOk result (text.new.items ≡ text.old.items ++ spaced (map pair_text pairs.now)) }
{
    let [first, others @ ..] = pairs else {
        return Ok(());
    };
    push_pair(text, first)?;
    for pair in others {
        text.push(b' ')?;
        push_pair(text, pair)?;
    }
    Ok(())
}

// The pairs in parentheses, as `((a b) (c d))`.
fn push_renaming(text: &mut Vec<u8>, renaming: &SharedPairs) -> Result<(), NoMemory>
    ensures { OnOk result (text.new.items ≡ text.old.items ++ renaming_text renaming.now) }
{
    text.push(b'(')?;
    push_spaced_pairs(text, renaming.as_slice())?;
    text.push(b')')?;
    Ok(())
}

// By what, in which direction, and what it names, at which place: three words and a place.
fn push_by(text: &mut Vec<u8>, by: &str, dir: Dir, name: &Name, path: &Path) -> Result<(), NoMemory>
    ensures { OnOk result (text.new.items ≡ text.old.items ++
        spaced (by.now ∷ direction_word (direction_of dir) ∷ name.now ∷ place_text path.now ∷ [])) }
{
    text.extend_from_slice(by.as_bytes())?;
    text.push(b' ')?;
    text.extend_from_slice(direction_word(dir).as_bytes())?;
    text.push(b' ')?;
    text.extend_from_slice(name.text().as_bytes())?;
    text.push(b' ')?;
    push_place(text, path)
}

// The context after a blank.
fn push_context(text: &mut Vec<u8>, sig: &Sig, ctx: &Ctx) -> Result<(), NoMemory>
    requires { IsContextWithin (length sig.now) (context_of ctx.now) }
    ensures { OnOk result (text.new.items ≡ text.old.items ++ codes " " ++
        tree_text (context_tree sig.now (context_of ctx.now))) }
{
    text.push(b' ')?;
    push_ctx(text, sig, ctx)
}

// The renaming after a blank.
fn push_names(text: &mut Vec<u8>, renaming: &SharedPairs) -> Result<(), NoMemory>
    ensures { OnOk result (text.new.items ≡ text.old.items ++ codes " " ++ renaming_text renaming.now) }
{
    text.push(b' ')?;
    push_renaming(text, renaming)
}

fn push_mark(text: &mut Vec<u8>, sig: &Sig, mark: &Mark) -> Result<(), NoMemory>
    requires { IsMarkWithin (length sig.now) mark.now }
    ensures { OnOk result (text.new.items ≡ text.old.items ++ mark_line sig.now (mark_of mark.now)) }
{
    match mark {
        Mark::ByRule { dir, word, path } => push_by(text, "by rule", *dir, word, path)?,
        Mark::ByTheorem {
            dir,
            name,
            path,
            renaming,
        } => {
            push_by(text, "by theorem", *dir, name, path)?;
            push_names(text, renaming)?;
        }
        Mark::ByAssumption {
            dir,
            name,
            path,
            renaming,
            ctx,
        } => {
            push_by(text, "by assume", *dir, name, path)?;
            push_names(text, renaming)?;
            push_context(text, sig, ctx)?;
        }
    }
    text.push(b'\n')?;
    Ok(())
}

// Each mark, and then the term that comes by it, from the term of number 1 on.
fn push_links(text: &mut Vec<u8>, sig: &Sig, chain: &Chain) -> Result<(), NoMemory>
    requires paired { HasOneTermMore chain.now }
    requires within { IsWithin (length sig.now) chain.now }
    ensures { OnOk result
        (text.new.items ≡ text.old.items ++ links_text sig.now 1 (chain_of chain.now).links) }
{
    let terms = chain.terms.as_slice();
    for (index, mark) in chain.marks.as_slice().iter().enumerate() {
        let number = index + 1;
        push_mark(text, sig, mark)?;
        push_term(text, sig, number as u64, &terms[number])?;
    }
    Ok(())
}

// How many neighbours are exact, and how many an assumption.
fn push_counts(text: &mut Vec<u8>, exact: u64, assumed: u64) -> Result<(), NoMemory>
    ensures { OnOk result (text.new.items ≡ text.old.items ++ count_line exact assumed) }
{
    text.extend_from_slice(b"exact ")?;
    push_number(text, exact)?;
    text.extend_from_slice(b" assumed ")?;
    push_number(text, assumed)?;
    text.push(b'\n')?;
    Ok(())
}

// How many neighbours are the assumption, if there is one.
fn push_assumption(text: &mut Vec<u8>, assumption: &Name, count: u64) -> Result<(), NoMemory>
    ensures { OnOk result
        (text.new.items ≡ text.old.items ++ assumption_line assumption.now count) }
{
    if count == 0 {
        return Ok(());
    }
    text.extend_from_slice(b"assume ")?;
    text.extend_from_slice(assumption.text().as_bytes())?;
    text.push(b' ')?;
    push_number(text, count)?;
    text.push(b'\n')?;
    Ok(())
}

// A line for each assumption that is used.
fn push_assumptions(text: &mut Vec<u8>, document: &Document, chain: &Chain) -> Result<(), NoMemory>
    ensures { OnOk result
        (text.new.items ≡ text.old.items ++
        assumption_lines (assumptions_in (document_of document.now).entries)
        (chain_of chain.now).links) }
{
    for item in document.items.as_slice() {
        if let Item::Assumption(assumption) = item {
            let count = chain.assumed(&assumption.name);
            push_assumption(text, &assumption.name, count)?;
        }
    }
    Ok(())
}

/// Pushes the text of the chain of a theorem of the document: its name with those of its sides, its
/// terms with the marks between them, and how many neighbours are exact or an assumption. Where
/// memory runs out, a part of the text may have been pushed.
pub fn push_chain(text: &mut Vec<u8>, document: &Document, chain: &Chain) -> Result<(), NoMemory>
    requires paired { HasOneTermMore chain.now }
    requires within { IsWithin (length document.now.sig) chain.now }
    ensures { OnOk result
        (text.new.items ≡ text.old.items ++
        chain_text document.now.sig (assumptions_in (document_of document.now).entries)
        chain.now.name chain.now.left chain.now.right (chain_of chain.now)) }
{
    push_theorem(text, chain)?;
    push_term(text, &document.sig, 0, &chain.terms.as_slice()[0])?;
    push_links(text, &document.sig, chain)?;
    let exact = chain.exact();
    push_counts(text, exact, chain.neighbours() - exact)?;
    push_assumptions(text, document, chain)?;
    Ok(())
}

/// The text of the chain alone. Where memory runs out, what is written is dropped.
pub fn chain_text(alloc: Global, document: &Document, chain: &Chain) -> Result<Vec<u8>, NoMemory>
    requires paired { HasOneTermMore chain.now }
    requires within { IsWithin (length document.now.sig) chain.now }
    ensures { IfOk result
        (λ text. text.items ≡
        chain_text document.now.sig (assumptions_in (document_of document.now).entries)
        chain.now.name chain.now.left chain.now.right (chain_of chain.now)) }
{
    let mut text = Vec::new(alloc);
    push_chain(&mut text, document, chain)?;
    Ok(text)
}

/// Pushes the last line of all chains of a document. Where memory runs out, a part of it may have
/// been pushed.
pub fn push_accepted_line(
    text: &mut Vec<u8>,
    theorems: u64,
    neighbours: u64,
) -> Result<(), NoMemory>
    ensures { OnOk result
        (text.new.items ≡ text.old.items ++ accepted_line theorems neighbours) }
{
    text.extend_from_slice(b"accepted theorems ")?;
    push_number(text, theorems)?;
    text.extend_from_slice(b" neighbours ")?;
    push_number(text, neighbours)?;
    text.push(b'\n')?;
    Ok(())
}
