//! Chains: their counts, and their text.

ghost use Rattle.std.specs.Prelude.{◌≡◌, All, IfOk, length};
ghost use Rattle.ipdl_chain.specs.Views.{HasOneTermMore, IsMarkWithin, IsWithin};
ghost use Rattle.ipdl_term.specs.Views.{protocol_of};
ghost use Rattle.ipdl_term.specs.Within.{IsProtocolWithin};

use crate::building::{document, name, path};
use ipdl_base::{Bits, List, Name, NoMemory};
use ipdl_chain::{Chain, Mark, chain_text, push_accepted_line};
use ipdl_forms::Document;
use ipdl_term::{Dir, Expr, Names, Proto, React, boxed};
use std::alloc::Global;

// ---- three terms and two marks

// A bit on a channel.
fn bit(alloc: Global, channel: &str, value: u128) -> Result<Proto, NoMemory>
    ensures { IfOk result (λ p. IsProtocolWithin 0 (protocol_of p)) }
{
    match Bits::new(1, value) {
        Some(bits) => Ok(Proto::Out(name(alloc, channel)?, React::Ret(Expr::Lit(bits)))),
        None => Err(NoMemory),
    }
}

// A bit on each of two channels.
fn bits(alloc: Global, first: (&str, u128), second: (&str, u128)) -> Result<Proto, NoMemory>
    ensures { IfOk result (λ p. IsProtocolWithin 0 (protocol_of p)) }
{
    Ok(Proto::Par(
        boxed(alloc, bit(alloc, first.0, first.1))?,
        boxed(alloc, bit(alloc, second.0, second.1))?,
    ))
}

fn terms(alloc: Global) -> Result<List<Proto>, NoMemory>
    ensures count { IfOk result (λ terms. length terms ≡ 3) }
    ensures within { IfOk result (λ terms. All (λ p. IsProtocolWithin 0 (protocol_of p)) terms) }
{
    let mut terms = List::empty(alloc);
    terms.push(bits(alloc, ("a", 0), ("b", 1))?)?;
    terms.push(bits(alloc, ("b", 1), ("a", 0))?)?;
    terms.push(Proto::Nil)?;
    Ok(terms)
}

fn mark(alloc: Global, dir: Dir, word: &str, place: &[u32]) -> Result<Mark, NoMemory>
    ensures { IfOk result (λ mark. IsMarkWithin 0 mark) }
{
    let path = path(alloc, place)?;
    Ok(Mark::ByRule {
        dir,
        word: name(alloc, word)?,
        path,
    })
}

fn marks(alloc: Global) -> Result<List<Mark>, NoMemory>
    ensures count { IfOk result (λ marks. length marks ≡ 2) }
    ensures within { IfOk result (λ marks. All (λ mark. IsMarkWithin 0 mark) marks) }
{
    let mut marks = List::empty(alloc);
    marks.push(mark(alloc, Dir::Lr, "comm", &[])?)?;
    marks.push(mark(alloc, Dir::Rl, "unit", &[0, 12])?)?;
    Ok(marks)
}

fn chain(alloc: Global) -> Result<Chain, NoMemory>
    ensures paired { IfOk result (λ chain. HasOneTermMore chain) }
    ensures within { IfOk result (λ chain. IsWithin 0 chain) }
{
    Ok(Chain {
        name: name(alloc, "t")?,
        left: name(alloc, "A")?,
        right: name(alloc, "B")?,
        terms: terms(alloc)?,
        marks: marks(alloc)?,
        hidden: Names::empty(alloc),
    })
}

// ---- the counts and the text

// Its assumption is used by no mark.
const DECLARED: &str =
    "(ipdl 1 (protocol A (inputs) (outputs) (nil)) (protocol B (inputs) (outputs) (nil)) (assume prg A B))";

const CHAIN: &str =
    "theorem t A B\n0 (par (out a (ret #0)) (out b (ret #1)))\nby rule lr comm ()\n1 (par (out b (ret #1)) (out a (ret #0)))\nby rule rl unit (0 12)\n2 (nil)\nexact 2 assumed 0\n";

const ACCEPTED: &str = "accepted theorems 1 neighbours 2\n";

fn counts(alloc: Global, chain: &Chain) -> Option<bool> {
    let assumption = Name::read(alloc, "prg").ok()?;
    Some(chain.neighbours() == 2 && chain.exact() == 2 && chain.assumed(&assumption) == 0)
}

// Whether the text is the chain's one, and then has the last line of all chains after it.
fn is_written(mut text: Vec<u8>) -> Option<bool> {
    let alone = text.as_slice() == CHAIN.as_bytes();
    push_accepted_line(&mut text, 1, 2).ok()?;
    Some(alone && text.as_slice().strip_prefix(CHAIN.as_bytes()) == Some(ACCEPTED.as_bytes()))
}

// The chain's text: its terms have no symbols, and nor has the document.
fn text(alloc: Global, document: &Document, chain: &Chain) -> Option<Vec<u8>>
    requires paired { HasOneTermMore chain.now }
    requires within { IsWithin 0 chain.now }
{
    match document.sig.count() {
        0 => chain_text(alloc, document, chain).ok(),
        _ => None,
    }
}

fn is_told(alloc: Global, document: &Document) -> Option<bool> {
    let chain = boxed(alloc, chain(alloc)).ok()?;
    let text = text(alloc, document, &chain)?;
    Some(counts(alloc, &chain)? && is_written(text)?)
}

#[test]
fn tells_chains(rt: HostRuntime) {
    let alloc = rt.alloc();
    let read = document(alloc, DECLARED);
    assert!(rt; read.as_ref().and_then(|document| is_told(alloc, document)) == Some(true));
}
