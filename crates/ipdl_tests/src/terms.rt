//! Terms: equality, copies, what occurs in them, sets of channels, and the words of rules.

use crate::building::{body, document, reaction};
use ipdl_base::{Name, NoMemory};
use ipdl_forms::Document;
use ipdl_term::{
    Expr, Names, Part, Proto, React, Rule, boxed, copy_part, copy_proto, copy_react, free,
    has_flip, has_read, must, nodes, outs, reads, rule_number, rule_word,
};
use std::alloc::Global;

// The protocols 0 and 1 are one network, and the reactions of 2 and 3 are one.
const TERMS: &str =
    "(ipdl 1 (protocol A0 (inputs) (outputs) (new ((c 1) (d 2)) (par (out c (flip 3)) (out d (bind x 3 (read c) (ret (cut 0 2 x)))) (out b (if #0 (flip 4) (flip 2)))))) (protocol A1 (inputs) (outputs) (new ((c 1) (d 2)) (par (out c (flip 3)) (out d (bind y 3 (read c) (ret (cut 0 2 y)))) (out b (if #0 (flip 4) (flip 2)))))) (protocol A2 (inputs) (outputs) (out a (bind x 1 (read g) (if x (read m) (ret #0))))) (protocol A3 (inputs) (outputs) (out a (bind y 1 (read g) (if y (read m) (ret #0))))) (protocol A4 (inputs) (outputs) (out a (read g))) (protocol A5 (inputs) (outputs) (out a (ret #0))) (protocol A6 (inputs) (outputs) (out a (ret #00))) (protocol A7 (inputs) (outputs) (out a (bind x 1 (flip 0) (ret x)))) (protocol A8 (inputs) (outputs) (new ((c 1)) (par (out c (read m)) (out b (read c))))))";

// ---- equality and copies

fn compares(document: &Document) -> Option<bool> {
    let network = body(document, 0)?;
    let gated = reaction(document, 2)?;
    Some(
        *network == *body(document, 1)?
            && *network != *body(document, 5)?
            && *gated == *reaction(document, 3)?
            && *gated != *reaction(document, 4)?
            && *reaction(document, 5)? != *reaction(document, 6)?,
    )
}

fn compares_variables() -> bool {
    Expr::Var(1) != Expr::Outer(1)
}

fn compares_parts() -> bool {
    Part::E(Expr::Var(0)) != Part::R(React::Ret(Expr::Var(0)))
}

pub(crate) fn protocol_part(alloc: Global, term: &Proto) -> Result<Part, NoMemory> {
    Ok(Part::P(copy_proto(alloc, term)?))
}

pub(crate) fn reaction_part(alloc: Global, term: &React) -> Result<Part, NoMemory> {
    Ok(Part::R(copy_react(alloc, term)?))
}

fn is_copied(alloc: Global, part: &Part) -> bool {
    match &boxed(alloc, copy_part(alloc, part)) {
        Ok(copy) => **copy == *part,
        Err(_) => false,
    }
}

fn copies_protocols(alloc: Global, document: &Document) -> Option<bool> {
    let part = boxed(alloc, protocol_part(alloc, body(document, 0)?)).ok()?;
    Some(is_copied(alloc, &part) && nodes(&part) == 17)
}

fn copies_reactions(alloc: Global, document: &Document) -> Option<bool> {
    let part = boxed(alloc, reaction_part(alloc, reaction(document, 2)?)).ok()?;
    Some(is_copied(alloc, &part))
}

// ---- what occurs

fn tells_what_occurs(document: &Document) -> Option<bool> {
    let gated = reaction(document, 2)?;
    let tossed = reaction(document, 7)?;
    Some(!has_flip(gated) && has_read(gated) && has_flip(tossed) && !has_read(tossed))
}

// ---- sets of channels

// Whether the set has just the members of the text, in its order.
fn holds(set: &Names, members: &str) -> bool {
    let mut rest = members.split(' ');
    for name in set.list() {
        if rest.next() != Some(name.text()) {
            return false;
        }
    }
    rest.next().is_none()
}

// Whether this set was made.
fn is_set(names: Result<Names, NoMemory>, members: &str) -> bool {
    match &names {
        Ok(set) => holds(set, members),
        Err(_) => false,
    }
}

fn finds_what_is_read(alloc: Global, document: &Document) -> Option<bool> {
    let gated = reaction(document, 2)?;
    Some(is_set(must(alloc, gated), "g") && is_set(reads(alloc, gated), "g m"))
}

fn finds_what_is_written(alloc: Global, document: &Document) -> Option<bool> {
    let hidden = body(document, 8)?;
    Some(is_set(outs(alloc, hidden), "b") && is_set(free(alloc, hidden), "b m"))
}

// ---- the tests of terms that are read

// The name of the first group of calls that answers otherwise.
fn first_wrong(alloc: Global, document: &Document) -> Option<&'static str> {
    for (name, answer) in [
        ("equality", compares(document)),
        ("copies of protocols", copies_protocols(alloc, document)),
        ("copies of reactions", copies_reactions(alloc, document)),
        ("what occurs", tells_what_occurs(document)),
        ("what is read", finds_what_is_read(alloc, document)),
        ("what is written", finds_what_is_written(alloc, document)),
    ] {
        if answer != Some(true) {
            return Some(name);
        }
    }
    None
}

#[test]
fn works_on_terms_that_are_read(rt: HostRuntime) {
    let alloc = rt.alloc();
    let read = document(alloc, TERMS);
    assert!(rt; read.is_some());
    if let Some(document) = &read {
        assert_eq!(rt; first_wrong(alloc, document), None);
    }
}

#[test]
fn compares_made_terms(rt: HostRuntime) {
    assert!(rt; compares_variables() && compares_parts());
}

// Adds the name, and tells whether the set then has just these members, and this name, and not b.
fn is_added(alloc: Global, set: &mut Names, text: &str, members: &str) -> Option<bool> {
    set.add(Name::read(alloc, text).ok()?).ok()?;
    Some(holds(set, members) && has(alloc, set, text)? && !has(alloc, set, "b")?)
}

fn has(alloc: Global, set: &Names, text: &str) -> Option<bool> {
    let name = Name::read(alloc, text).ok()?;
    Some(set.has(&name))
}

#[test]
fn keeps_sets_of_names(rt: HostRuntime) {
    let alloc = rt.alloc();
    let mut set = Names::empty(alloc);
    for (text, members) in [
        ("a", "a"),
        ("a", "a"),
        ("c", "a c"),
        ("B", "B a c"),
        ("a1", "B a a1 c"),
    ] {
        assert!(rt;
            is_added(alloc, &mut set, text, members) == Some(true),
            "{text}"
        );
    }
}

// ---- rules

fn number_of(alloc: Global, word: &str) -> Option<u8> {
    rule_number(&Name::read(alloc, word).ok()?)
}

#[test]
fn numbers_rules_by_their_words(rt: HostRuntime) {
    for (word, number) in [
        ("beta", Some(0)),
        ("table", Some(15)),
        ("comm", Some(17)),
        ("shape", Some(30)),
        ("Beta", None),
        ("rev", None),
        ("comma", None),
    ] {
        assert!(rt; number_of(rt.alloc(), word) == number, "{word}");
    }
}

fn names_two_rules() -> bool {
    rule_word(&Rule::Perm(3)) == "perm" && rule_word(&Rule::Diverge) == "diverge"
}

fn names_subsume(alloc: Global) -> Option<bool> {
    let name = Name::read(alloc, "a").ok()?;
    let rule = boxed(alloc, Ok(Rule::Subsume(name, 1))).ok()?;
    Some(rule_word(&rule) == "subsume")
}

#[test]
fn names_rules(rt: HostRuntime) {
    assert!(rt; names_two_rules() && names_subsume(rt.alloc()) == Some(true));
}
