//! Types: the calls of the type checker, at terms that no document has, and at many ports.

use ipdl_base::{Bits, List, Name, NoMemory};
use ipdl_printing::push_place;
use ipdl_sig::Sig;
use ipdl_term::{Expr, Interface, Port, Proto, React, boxed};
use ipdl_typing::{Ill, IllCause, TypeFault, check_expr, check_proto, check_react, check_sides};
use std::alloc::Global;

// ---- answers as text

fn push_cause(text: &mut String, cause: &IllCause) -> Result<(), NoMemory> {
    match cause {
        IllCause::Width { want, got } => write!(text, " Width {want} {got}")?,
        IllCause::Unbound { number } => write!(text, " Unbound {number}")?,
        IllCause::NoSymbol { number } => write!(text, " NoSymbol {number}")?,
        IllCause::Interface { name } => write!(text, " Interface {}", name.text())?,
        _ => text.push_str(" another")?,
    }
    Ok(())
}

// The place and the cause.
fn ill_text(alloc: Global, ill: &Ill) -> Result<String, NoMemory> {
    let mut text = String::new(alloc);
    push_place(&mut text, ill.path.parts())?;
    push_cause(&mut text, &ill.cause)?;
    Ok(text)
}

// Whether the text says what is ill.
fn is_fault(alloc: Global, fault: &TypeFault, want: &str) -> Option<bool> {
    match fault {
        TypeFault::Ill(ill) => Some(ill_text(alloc, ill).ok()?.as_str() == want),
        TypeFault::Memory => None,
    }
}

// Whether the answer is the wanted one: a width, or the text of what is ill.
fn is_told(alloc: Global, answer: &Result<u8, TypeFault>, want: Result<u8, &str>) -> bool {
    match (answer, want) {
        (Ok(got), Ok(width)) => *got == width,
        (Err(fault), Err(text)) => is_fault(alloc, fault, text) == Some(true),
        _ => false,
    }
}

// Whether the text says what is ill, or is empty where nothing is.
fn is_judged(alloc: Global, answer: &Result<(), TypeFault>, want: &str) -> bool {
    match answer {
        Ok(()) => want.is_empty(),
        Err(fault) => is_fault(alloc, fault, want) == Some(true),
    }
}

// ---- expressions, under binders of the widths 3 and 5, from the outermost

fn is_typed(alloc: Global, sig: &Sig, term: &Expr, want: Result<u8, &str>) -> bool {
    is_told(alloc, &check_expr(alloc, sig, &[3, 5], term), want)
}

fn types_outer(alloc: Global, sig: &Sig) -> bool {
    is_typed(alloc, sig, &Expr::Outer(0), Err("() Unbound 0"))
}

fn types_variable(alloc: Global, sig: &Sig, number: u32, want: Result<u8, &str>) -> bool {
    is_typed(alloc, sig, &Expr::Var(number), want)
}

// The symbol at a variable that no binder has.
fn applied(alloc: Global, symbol: u32) -> Result<Expr, NoMemory> {
    Ok(Expr::Apply(symbol, boxed(alloc, Ok(Expr::Var(9)))?))
}

fn types_symbol(alloc: Global, sig: &Sig, symbol: u32, want: Result<u8, &str>) -> bool {
    match &applied(alloc, symbol) {
        Ok(term) => is_typed(alloc, sig, term, want),
        Err(_) => false,
    }
}

// Bits of which no number of 8 bits counts the end.
fn cut(alloc: Global) -> Option<Expr> {
    let three = Bits::new(3, 0)?;
    let operand = boxed(alloc, Ok(Expr::Lit(three))).ok()?;
    Some(Expr::Cut(255, 255, operand))
}

fn types_cut(alloc: Global, sig: &Sig) -> Option<bool> {
    let term = cut(alloc)?;
    Some(is_typed(alloc, sig, &term, Err("(0) Width 510 3")))
}

// Adds a symbol from width 2 to width 1.
fn add_symbol(alloc: Global, sig: &mut Sig) -> bool {
    match Name::read(alloc, "f") {
        Ok(name) => sig.count() < 100 && sig.add_fun(name, 2, 1) == Ok(0),
        Err(_) => false,
    }
}

fn types_expressions(alloc: Global, sig: &Sig) -> bool {
    types_variable(alloc, sig, 0, Ok(5))
        && types_variable(alloc, sig, 1, Ok(3))
        && types_variable(alloc, sig, 2, Err("() Unbound 2"))
        && types_outer(alloc, sig)
        && types_symbol(alloc, sig, 1, Err("() NoSymbol 1"))
        && types_symbol(alloc, sig, 0, Err("(0) Unbound 9"))
        && types_cut(alloc, sig) == Some(true)
}

#[test]
fn expressions(rt: HostRuntime) {
    let alloc = rt.alloc();
    let mut sig = Sig::empty(alloc);
    assert!(rt; add_symbol(alloc, &mut sig));
    assert!(rt; types_expressions(alloc, &sig));
}

// ---- reactions, under one binder of width 3

fn port(alloc: Global, text: &str, width: u8) -> Option<Port> {
    let name = Name::read(alloc, text).ok()?;
    Some(Port { name, width })
}

// The channel c of width 2, and two ports of the name d, of which the last one counts.
fn scope(alloc: Global) -> Option<List<Port>> {
    let mut ports = List::empty(alloc);
    for (text, width) in [("c", 2), ("d", 4), ("d", 1)] {
        ports.push(port(alloc, text, width)?).ok()?;
    }
    Some(ports)
}

fn gives(alloc: Global, scope: &[Port], term: &React, want: Result<u8, &str>) -> bool {
    let sig = Sig::empty(alloc);
    is_told(alloc, &check_react(alloc, &sig, scope, &[3], term), want)
}

fn read(alloc: Global, channel: &Name) -> Result<React, NoMemory> {
    Ok(React::Read(channel.copy(alloc)?))
}

// The value of the channel, and then that of a variable under it.
fn after(alloc: Global, channel: &Name, number: u32) -> Result<Box<React>, NoMemory> {
    let first = boxed(alloc, read(alloc, channel))?;
    let then = boxed(alloc, Ok(React::Ret(Expr::Var(number))))?;
    boxed(alloc, Ok(React::Bind(2, first, then)))
}

fn gives_after(
    alloc: Global,
    scope: &[Port],
    channel: &Name,
    number: u32,
    want: Result<u8, &str>,
) -> bool {
    match &after(alloc, channel, number) {
        Ok(term) => gives(alloc, scope, term, want),
        Err(_) => false,
    }
}

fn gives_of_two(alloc: Global, scope: &[Port]) -> Option<bool> {
    let d = Name::read(alloc, "d").ok()?;
    let term = boxed(alloc, read(alloc, &d)).ok()?;
    Some(gives(alloc, scope, &term, Ok(1)))
}

fn gives_widths(alloc: Global, scope: &[Port]) -> Option<bool> {
    let c = Name::read(alloc, "c").ok()?;
    Some(
        gives_after(alloc, scope, &c, 1, Ok(3))
            && gives_after(alloc, scope, &c, 2, Err("(1 0) Unbound 2")),
    )
}

fn gives_flips(alloc: Global, scope: &[Port]) -> bool {
    gives(alloc, scope, &React::Flip(129), Err("() Width 128 129"))
}

fn gives_all(alloc: Global) -> Option<bool> {
    let ports = scope(alloc)?;
    let scope = ports.as_slice();
    Some(gives_of_two(alloc, scope)? && gives_widths(alloc, scope)? && gives_flips(alloc, scope))
}

#[test]
fn reactions(rt: HostRuntime) {
    assert!(rt; gives_all(rt.alloc()) == Some(true));
}

// ---- protocols and sides

// Without inputs.
fn interface(alloc: Global, outputs: List<Port>) -> Interface {
    Interface {
        inputs: List::empty(alloc),
        outputs,
    }
}

// A channel of 129 bits hidden around `(nil)`.
fn wide(alloc: Global) -> Option<Box<Proto>> {
    let name = Name::read(alloc, "d").ok()?;
    let inner = boxed(alloc, Ok(Proto::Nil)).ok()?;
    boxed(alloc, Ok(Proto::Hide(name, 129, inner))).ok()
}

fn is_refused(alloc: Global, interface: &Interface, term: &Proto, want: &str) -> bool {
    let sig = Sig::empty(alloc);
    is_judged(alloc, &check_proto(alloc, &sig, interface, term), want)
}

fn refuses_wide(alloc: Global, interface: &Interface) -> Option<bool> {
    let term = wide(alloc)?;
    Some(is_refused(alloc, interface, &term, "() Width 128 129"))
}

#[test]
fn protocols(rt: HostRuntime) {
    let alloc = rt.alloc();
    let interface = interface(alloc, List::empty(alloc));
    assert!(rt; refuses_wide(alloc, &interface) == Some(true));
}

// So many outputs of one bit, whose numbers are their distances from the first one.
fn many(alloc: Global, count: u32, first: u32) -> Option<List<Port>> {
    let mut ports = List::empty(alloc);
    for turn in 0..count {
        ports.push(numbered(alloc, first.abs_diff(turn))?).ok()?;
    }
    Some(ports)
}

fn numbered(alloc: Global, number: u32) -> Option<Port> {
    let text = format!(in alloc; "c{number}").ok()?;
    port(alloc, text.as_str(), 1)
}

// The outputs c1999 to c0 against so many from c0 on.
fn compares_sides(alloc: Global, count: u32, want: &str) -> Option<bool> {
    let left = interface(alloc, many(alloc, 2000, 1999)?);
    let right = interface(alloc, many(alloc, count, 0)?);
    let answer = check_sides(alloc, &left, &right);
    Some(is_judged(alloc, &answer, want))
}

#[test]
fn many_sides(rt: HostRuntime) {
    let alloc = rt.alloc();
    assert!(rt; compares_sides(alloc, 2000, "") == Some(true));
    assert!(rt; compares_sides(alloc, 2001, "() Interface c2000") == Some(true));
}
