//! Places in protocols: the part at one with what is around it, another part there, and contexts.

ghost use Rattle.std.specs.Prelude.{◌≡◌, IfOk};
ghost use Rattle.ipdl_term.specs.Sizes.{greatest_in_protocol, greatest_in_reaction, protocol_binders, reaction_binders};
ghost use Rattle.ipdl_term.specs.Views.{protocol_of, reaction_of};

use crate::building::{body, document, gives, name, path, protocol, reaction};
use crate::terms::{protocol_part, reaction_part};
use ipdl_base::{Bits, List, NoMemory};
use ipdl_cursor::{FocusFault, Found, PartRef, RebuildFault, context, focus, rebuild};
use ipdl_forms::Document;
use ipdl_term::{Condition, Ctx, Expr, Interface, Part, Port, Proto, React, boxed, plug};
use std::alloc::Global;

// A0 is the network, with its interface. Of the next ones the bodies and reactions are its parts,
// and the inputs of A1 are the scope below its `new`. The last three are the network with another
// part.
const TERMS: &str =
    "(ipdl 1 (protocol A0 (inputs (g 2)) (outputs (b 3)) (new ((c 1)) (par (out c (flip 1)) (out b (bind x 1 (read c) (if x (bind y 3 (flip 3) (ret y)) (flip 3))))))) (protocol A1 (inputs (g 2) (b 3) (c 1)) (outputs) (out c (flip 1))) (protocol A2 (inputs) (outputs) (out b (bind x 1 (read c) (if x (bind y 3 (flip 3) (ret y)) (flip 3))))) (protocol A3 (inputs) (outputs) (out b (bind y 3 (flip 3) (ret y)))) (protocol A4 (inputs) (outputs) (out b (flip 3))) (protocol A5 (inputs) (outputs) (new ((c 1)) (par (out b (flip 3)) (out b (bind x 1 (read c) (if x (bind y 3 (flip 3) (ret y)) (flip 3))))))) (protocol A6 (inputs) (outputs) (new ((c 1)) (par (out c (flip 1)) (out b (bind x 1 (read c) (if x (flip 3) (flip 3))))))) (protocol A7 (inputs) (outputs) (new ((c 1)) (par (out c (flip 1)) (out b (bind x 1 (read c) (if #1 (bind y 3 (flip 3) (ret y)) (flip 3))))))))";

// ---- the network, made by hand: `focus` wants to know how great its variables are

// (bind y 3 (flip 3) (ret y))
fn tossed(alloc: Global) -> Result<React, NoMemory>
    ensures greatest { IfOk result (λ r. greatest_in_reaction (reaction_of r) ≡ 0) }
    ensures binders { IfOk result (λ r. reaction_binders (reaction_of r) ≡ 1) }
{
    Ok(React::Bind(
        3,
        boxed(alloc, Ok(React::Flip(3)))?,
        boxed(alloc, Ok(React::Ret(Expr::Var(0))))?,
    ))
}

// The same where x is a one, and else (flip 3).
fn chosen(alloc: Global) -> Result<React, NoMemory>
    ensures greatest { IfOk result (λ r. greatest_in_reaction (reaction_of r) ≡ 0) }
    ensures binders { IfOk result (λ r. reaction_binders (reaction_of r) ≡ 1) }
{
    let then = boxed(alloc, tossed(alloc))?;
    let other = boxed(alloc, Ok(React::Flip(3)))?;
    Ok(React::Cond(Expr::Var(0), then, other))
}

fn read(alloc: Global) -> Result<React, NoMemory>
    ensures greatest { IfOk result (λ r. greatest_in_reaction (reaction_of r) ≡ 0) }
    ensures binders { IfOk result (λ r. reaction_binders (reaction_of r) ≡ 0) }
{
    Ok(React::Read(name(alloc, "c")?))
}

// The same after x is read.
fn gated(alloc: Global) -> Result<React, NoMemory>
    ensures greatest { IfOk result (λ r. greatest_in_reaction (reaction_of r) ≡ 0) }
    ensures binders { IfOk result (λ r. reaction_binders (reaction_of r) ≡ 2) }
{
    Ok(React::Bind(1, boxed(alloc, read(alloc))?, boxed(alloc, chosen(alloc))?))
}

fn gated_output(alloc: Global) -> Result<Proto, NoMemory>
    ensures greatest { IfOk result (λ p. greatest_in_protocol (protocol_of p) ≡ 0) }
    ensures binders { IfOk result (λ p. protocol_binders (protocol_of p) ≡ 2) }
{
    let name = name(alloc, "b")?;
    Ok(Proto::Out(name, gated(alloc)?))
}

fn coin(alloc: Global) -> Result<Proto, NoMemory>
    ensures greatest { IfOk result (λ p. greatest_in_protocol (protocol_of p) ≡ 0) }
    ensures binders { IfOk result (λ p. protocol_binders (protocol_of p) ≡ 0) }
{
    Ok(Proto::Out(name(alloc, "c")?, React::Flip(1)))
}

fn beside(alloc: Global) -> Result<Proto, NoMemory>
    ensures greatest { IfOk result (λ p. greatest_in_protocol (protocol_of p) ≡ 0) }
    ensures binders { IfOk result (λ p. protocol_binders (protocol_of p) ≡ 2) }
{
    Ok(Proto::Par(
        boxed(alloc, coin(alloc))?,
        boxed(alloc, gated_output(alloc))?,
    ))
}

fn network(alloc: Global) -> Result<Proto, NoMemory>
    ensures greatest { IfOk result (λ p. greatest_in_protocol (protocol_of p) ≡ 0) }
    ensures binders { IfOk result (λ p. protocol_binders (protocol_of p) ≡ 2) }
{
    let inner = boxed(alloc, beside(alloc))?;
    Ok(Proto::Hide(name(alloc, "c")?, 1, inner))
}

// ---- the part at a place

// What is to be found at a place: the widths of the binders around it, and of the condition the
// variable that is its test, and its value.
#[derive(Clone, Copy)]
struct Wanted<'a> {
    place: &'a [u32],
    part: PartRef<'a>,
    widths: &'a [u8],
    condition: Option<(u32, bool)>,
}

fn is_same(part: PartRef, wanted: PartRef) -> bool {
    match (part, wanted) {
        (PartRef::P(p), PartRef::P(q)) => *p == *q,
        (PartRef::R(r), PartRef::R(s)) => *r == *s,
        (PartRef::E(e), PartRef::E(f)) => *e == *f,
        _ => false,
    }
}

fn is_condition(conditions: &[Condition], wanted: Option<(u32, bool)>) -> bool {
    match (conditions, wanted) {
        ([], None) => true,
        ([condition], Some((number, value))) => {
            condition.test == Expr::Var(number) && condition.value == value
        }
        _ => false,
    }
}

fn is_wanted(made: Result<Found, FocusFault>, wanted: &Wanted) -> bool {
    match &made {
        Ok(found) => {
            is_same(found.part, wanted.part)
                && found.widths.as_slice() == wanted.widths
                && is_condition(found.conditions.as_slice(), wanted.condition)
        }
        Err(_) => false,
    }
}

fn is_scope(made: Result<Found, FocusFault>, wanted: &List<Port>) -> bool {
    match &made {
        Ok(found) => found.scope == *wanted,
        Err(_) => false,
    }
}

fn found<'a>(
    alloc: Global,
    interface: &Interface,
    network: &'a Proto,
    place: &[u32],
) -> Result<Found<'a>, FocusFault>
    requires greatest { greatest_in_protocol (protocol_of network.now) ≡ 0 }
    requires binders { protocol_binders (protocol_of network.now) ≡ 2 }
{
    match &path(alloc, place) {
        Ok(path) => focus(alloc, interface, network, path),
        Err(_) => Err(FocusFault::Memory),
    }
}

fn finds(alloc: Global, document: &Document, network: &Proto, wanted: &Wanted) -> Option<bool>
    requires greatest { greatest_in_protocol (protocol_of network.now) ≡ 0 }
    requires binders { protocol_binders (protocol_of network.now) ≡ 2 }
{
    let item = protocol(document, 0)?;
    let made = found(alloc, &item.interface, network, wanted.place);
    Some(is_wanted(made, wanted))
}

fn finds_protocols(alloc: Global, document: &Document, network: &Proto) -> Option<bool>
    requires greatest { greatest_in_protocol (protocol_of network.now) ≡ 0 }
    requires binders { protocol_binders (protocol_of network.now) ≡ 2 }
{
    let whole = Wanted {
        place: &[],
        part: PartRef::P(body(document, 0)?),
        widths: &[],
        condition: None,
    };
    let coin = Wanted {
        place: &[0, 0],
        part: PartRef::P(body(document, 1)?),
        ..whole
    };
    Some(finds(alloc, document, network, &whole)? && finds(alloc, document, network, &coin)?)
}

fn finds_reactions(alloc: Global, document: &Document, network: &Proto) -> Option<bool>
    requires greatest { greatest_in_protocol (protocol_of network.now) ≡ 0 }
    requires binders { protocol_binders (protocol_of network.now) ≡ 2 }
{
    let one = Wanted {
        place: &[0, 1, 0, 1, 1],
        part: PartRef::R(reaction(document, 3)?),
        widths: &[1],
        condition: Some((0, true)),
    };
    let zero = Wanted {
        place: &[0, 1, 0, 1, 2],
        part: PartRef::R(reaction(document, 4)?),
        widths: &[1],
        condition: Some((0, false)),
    };
    Some(finds(alloc, document, network, &one)? && finds(alloc, document, network, &zero)?)
}

// Below a binder in the arm, over which the test is lifted.
fn finds_values(alloc: Global, document: &Document, network: &Proto) -> Option<bool>
    requires greatest { greatest_in_protocol (protocol_of network.now) ≡ 0 }
    requires binders { protocol_binders (protocol_of network.now) ≡ 2 }
{
    let value = Wanted {
        place: &[0, 1, 0, 1, 1, 1, 0],
        part: PartRef::E(&Expr::Var(0)),
        widths: &[1, 3],
        condition: Some((1, true)),
    };
    finds(alloc, document, network, &value)
}

// The scope below the `new`, and that nothing is below a `flip`.
fn finds_scope(alloc: Global, document: &Document, network: &Proto) -> Option<bool>
    requires greatest { greatest_in_protocol (protocol_of network.now) ≡ 0 }
    requires binders { protocol_binders (protocol_of network.now) ≡ 2 }
{
    let outside = &protocol(document, 0)?.interface;
    let inside = &protocol(document, 1)?.interface.inputs;
    Some(
        is_scope(found(alloc, outside, network, &[0, 1]), inside)
            && found(alloc, outside, network, &[0, 0, 0, 0]).err() == Some(FocusFault::NoPlace),
    )
}

fn finds_parts(alloc: Global, document: &Document) -> Option<bool> {
    let network = boxed(alloc, network(alloc)).ok()?;
    Some(
        finds_protocols(alloc, document, &network)?
            && finds_reactions(alloc, document, &network)?
            && finds_values(alloc, document, &network)?
            && finds_scope(alloc, document, &network)?,
    )
}

// ---- another part at a place

fn with(
    alloc: Global,
    document: &Document,
    place: &[u32],
    part: &Part,
) -> Option<Result<Proto, RebuildFault>> {
    let whole = body(document, 0)?;
    let path = path(alloc, place).ok()?;
    Some(rebuild(alloc, whole, &path, part))
}

// Whether the network with the part is the protocol of this index.
fn is_rebuilt(
    alloc: Global,
    document: &Document,
    place: &[u32],
    part: &Part,
    index: usize,
) -> Option<bool> {
    let wanted = body(document, index)?;
    Some(gives(with(alloc, document, place, part)?, wanted))
}

fn puts_protocols(alloc: Global, document: &Document) -> Option<bool> {
    let part = boxed(alloc, protocol_part(alloc, body(document, 4)?)).ok()?;
    is_rebuilt(alloc, document, &[0, 0], &part, 5)
}

fn puts_reactions(alloc: Global, document: &Document) -> Option<bool> {
    let part = boxed(alloc, reaction_part(alloc, reaction(document, 4)?)).ok()?;
    is_rebuilt(alloc, document, &[0, 1, 0, 1, 1], &part, 6)
}

fn one() -> Option<Part> {
    Some(Part::E(Expr::Lit(Bits::new(1, 1)?)))
}

fn puts_expressions(alloc: Global, document: &Document) -> Option<bool> {
    let part = one()?;
    is_rebuilt(alloc, document, &[0, 1, 0, 1, 0], &part, 7)
}

// An expression where a reaction stands, and below a `flip`.
fn refuses_parts(alloc: Global, document: &Document) -> Option<bool> {
    let part = one()?;
    Some(
        with(alloc, document, &[0, 1, 0], &part)?.err() == Some(RebuildFault::Kind)
            && with(alloc, document, &[0, 0, 0, 0], &part)?.err() == Some(RebuildFault::NoPlace),
    )
}

// ---- contexts

fn around(alloc: Global, whole: &Proto, place: &[u32]) -> Result<Ctx, RebuildFault> {
    match &path(alloc, place) {
        Ok(path) => context(alloc, whole, path),
        Err(_) => Err(RebuildFault::Memory),
    }
}

fn made_around(alloc: Global, whole: &Proto, place: &[u32]) -> Result<Ctx, NoMemory> {
    match around(alloc, whole, place) {
        Ok(ctx) => Ok(ctx),
        Err(_) => Err(NoMemory),
    }
}

// Whether the network's context at the place gives the network again with the protocol of this
// index in its hole.
fn is_plugged(alloc: Global, document: &Document, place: &[u32], index: usize) -> Option<bool> {
    let whole = body(document, 0)?;
    let part = body(document, index)?;
    let ctx = boxed(alloc, made_around(alloc, whole, place)).ok()?;
    Some(gives(plug(alloc, &ctx, part), whole))
}

fn gives_contexts(alloc: Global, document: &Document) -> Option<bool> {
    Some(is_plugged(alloc, document, &[0, 0], 1)? && is_plugged(alloc, document, &[0, 1], 2)?)
}

// Where a reaction stands, and below a `flip`.
fn refuses_contexts(alloc: Global, document: &Document) -> Option<bool> {
    let whole = body(document, 0)?;
    Some(
        around(alloc, whole, &[0, 1, 0]).err() == Some(RebuildFault::Kind)
            && around(alloc, whole, &[0, 0, 0, 0]).err() == Some(RebuildFault::NoPlace),
    )
}

// ---- all of these

// The name of the first group of calls that answers otherwise.
fn first_wrong(alloc: Global, document: &Document) -> Option<&'static str> {
    for (name, answer) in [
        ("parts", finds_parts(alloc, document)),
        ("another protocol", puts_protocols(alloc, document)),
        ("another reaction", puts_reactions(alloc, document)),
        ("another expression", puts_expressions(alloc, document)),
        ("parts of another kind", refuses_parts(alloc, document)),
        ("contexts", gives_contexts(alloc, document)),
        ("no contexts", refuses_contexts(alloc, document)),
    ] {
        if answer != Some(true) {
            return Some(name);
        }
    }
    None
}

#[test]
fn works_at_places(rt: HostRuntime) {
    let alloc = rt.alloc();
    let read = document(alloc, TERMS);
    assert!(rt; read.is_some());
    if let Some(document) = &read {
        assert_eq!(rt; first_wrong(alloc, document), None);
    }
}
