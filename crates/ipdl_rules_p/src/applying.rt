//! The call that makes the right side of a rule, and one small function for each rule.

ghost use Rattle.std.specs.Prelude.{◌≡◌, ℕ, ◌<◌, ◌≤◌, IfOk};
ghost use Rattle.ipdl_rules_p.specs.Answers.{Answers, IsToldWhere};
ghost use Rattle.ipdl_rules_p.specs.Instances.{IsProtocolInstance};
ghost use Rattle.ipdl_rules_p.specs.Matching.{answer, failing, gives, is_empty, other_shape};
ghost use Rattle.ipdl_rules_p.specs.Room.{HasRoom};
ghost use Rattle.ipdl_term.specs.Channels.{outputs};
ghost use Rattle.ipdl_term.specs.Rules as R;
ghost use Rattle.ipdl_term.specs.Sizes.{most_nodes, protocol_nodes};
ghost use Rattle.ipdl_term.specs.Steps.{rule_of};
ghost use Rattle.ipdl_term.specs.Terms.{Protocol};
ghost use Rattle.ipdl_term.specs.Views.{protocol_of};

use crate::fault::RuleFault;
use crate::free_in::{is_free_in, occurs_in};
use crate::new_react::NewReact;
use crate::reading::{is_must_read, is_read_at, is_read_in, is_same, read_count, reads_anyway};
use crate::right_side::RightSide;
use ipdl_base::{Name, NoMemory, Path};
use ipdl_term::{Proto, React, Rule, has_flip, outs, uses};
use std::alloc::Global;

// `(par P Q)` to `(par Q P)`.
fn comm(alloc: Global, term: &Proto) -> Result<Proto, RuleFault>
    ensures { Answers result (answer R.comm (protocol_of term.now)) }
{
    match term {
        Proto::Par(p, q) => RightSide::Par(&RightSide::Part(q), &RightSide::Part(p)).made(alloc),
        _ => Err(RuleFault::NoMatch),
    }
}

// `(par P (par Q R))` to `(par (par P Q) R)`.
fn assocl(alloc: Global, term: &Proto) -> Result<Proto, RuleFault>
    ensures { Answers result (answer R.assocl (protocol_of term.now)) }
{
    match term {
        Proto::Par(p, rest) => match &**rest {
            Proto::Par(q, r) => RightSide::Par(
                &RightSide::Par(&RightSide::Part(p), &RightSide::Part(q)),
                &RightSide::Part(r),
            )
            .made(alloc),
            _ => Err(RuleFault::NoMatch),
        },
        _ => Err(RuleFault::NoMatch),
    }
}

// `(par (par P Q) R)` to `(par P (par Q R))`.
fn assocr(alloc: Global, term: &Proto) -> Result<Proto, RuleFault>
    ensures { Answers result (answer R.assocr (protocol_of term.now)) }
{
    match term {
        Proto::Par(first, r) => match &**first {
            Proto::Par(p, q) => RightSide::Par(
                &RightSide::Part(p),
                &RightSide::Par(&RightSide::Part(q), &RightSide::Part(r)),
            )
            .made(alloc),
            _ => Err(RuleFault::NoMatch),
        },
        _ => Err(RuleFault::NoMatch),
    }
}

// `(par P (nil))` to `P`.
fn unit(alloc: Global, term: &Proto) -> Result<Proto, RuleFault>
    ensures { Answers result (answer R.unit (protocol_of term.now)) }
{
    match term {
        Proto::Par(p, rest) => match &**rest {
            Proto::Nil => RightSide::Part(p).made(alloc),
            _ => Err(RuleFault::NoMatch),
        },
        _ => Err(RuleFault::NoMatch),
    }
}

// `(new ((c v)) (new ((d w)) P))` to `(new ((d w)) (new ((c v)) P))`, where c is not d.
fn newswap(alloc: Global, term: &Proto) -> Result<Proto, RuleFault>
    ensures { Answers result (answer R.newswap (protocol_of term.now)) }
{
    match term {
        Proto::Hide(c, v, inner) => match &**inner {
            Proto::Hide(d, w, p) => {
                if is_same(c, d) {
                    return Err(RuleFault::Side(1));
                }
                RightSide::Hide(d, *w, &RightSide::Hide(c, *v, &RightSide::Part(p))).made(alloc)
            }
            _ => Err(RuleFault::NoMatch),
        },
        _ => Err(RuleFault::NoMatch),
    }
}

// `(par P (new ((c w)) Q))` to `(new ((c w)) (par P Q))`, where c is not free in P.
fn scope(alloc: Global, term: &Proto) -> Result<Proto, RuleFault>
    ensures { Answers result (answer R.scope (protocol_of term.now)) }
{
    match term {
        Proto::Par(p, rest) => match &**rest {
            Proto::Hide(c, w, q) => {
                if is_free_in(p, c) {
                    return Err(RuleFault::Side(1));
                }
                RightSide::Hide(
                    c,
                    *w,
                    &RightSide::Par(&RightSide::Part(p), &RightSide::Part(q)),
                )
                .made(alloc)
            }
            _ => Err(RuleFault::NoMatch),
        },
        _ => Err(RuleFault::NoMatch),
    }
}

// `(new ((c w)) P)` to `(new ((d w)) P)` with d for c, where d occurs nowhere in P.
fn rename(alloc: Global, name: &Name, term: &Proto) -> Result<Proto, RuleFault>
    ensures { Answers result (answer (R.rename name.now) (protocol_of term.now)) }
{
    match term {
        Proto::Hide(c, w, p) => {
            if occurs_in(p, name) {
                return Err(RuleFault::Side(1));
            }
            RightSide::Hide(name, *w, &RightSide::Renamed(p, c, name)).made(alloc)
        }
        _ => Err(RuleFault::NoMatch),
    }
}

// Whether the protocol writes no channel that it does not hide. The set of those takes memory.
fn writes_nothing(alloc: Global, proto: &Proto) -> Result<bool, NoMemory>
    ensures { IfOk result (λ holds. holds ≡ is_empty (outputs (protocol_of proto.now))) }
{
    let written = outs(alloc, proto)?;
    Ok(written.list().is_empty())
}

// `(par P Q)` to P, where Q writes nothing.
fn absorb(alloc: Global, term: &Proto) -> Result<Proto, RuleFault>
    ensures { Answers result (answer R.absorb (protocol_of term.now)) }
{
    match term {
        Proto::Par(p, q) => match writes_nothing(alloc, q) {
            Ok(true) => RightSide::Part(p).made(alloc),
            Ok(false) => Err(RuleFault::Side(1)),
            Err(_) => Err(RuleFault::Memory),
        },
        _ => Err(RuleFault::NoMatch),
    }
}

// `(new ((c w)) (par (out o K) (out c R)))` to `(out o K)` with R for the `(read c)` at the place,
// where o is not c, and c is read at no other place of K, and not in R.
fn fold(alloc: Global, place: &Path, term: &Proto) -> Result<Proto, RuleFault>
    ensures { Answers result (answer (R.fold place.now) (protocol_of term.now)) }
{
    match term {
        Proto::Hide(c, _, inner) => match &**inner {
            Proto::Par(first, second) => match (&**first, &**second) {
                (Proto::Out(o, k), Proto::Out(d, r)) => {
                    let place = place.parts();
                    if !is_same(d, c) || is_same(o, c) || !is_read_at(k, place, c) {
                        return Err(RuleFault::NoMatch);
                    }
                    if read_count(k, c) != 1 {
                        return Err(RuleFault::Side(1));
                    }
                    if is_read_in(r, c) {
                        return Err(RuleFault::Side(2));
                    }
                    RightSide::Out(o, NewReact::Filled(k, place, r)).made(alloc)
                }
                _ => Err(RuleFault::NoMatch),
            },
            _ => Err(RuleFault::NoMatch),
        },
        _ => Err(RuleFault::NoMatch),
    }
}

// `(par (out a R) (out b K))` to the same with R for the `(read a)` at the place in K, where a is
// not b, and R has no `flip`.
fn subst(alloc: Global, place: &Path, term: &Proto) -> Result<Proto, RuleFault>
    ensures { Answers result (answer (R.subst place.now) (protocol_of term.now)) }
{
    match term {
        Proto::Par(first, second) => match (&**first, &**second) {
            (Proto::Out(a, r), Proto::Out(b, k)) => {
                let place = place.parts();
                if is_same(a, b) || !is_read_at(k, place, a) {
                    return Err(RuleFault::NoMatch);
                }
                if has_flip(r) {
                    return Err(RuleFault::Side(1));
                }
                RightSide::Par(
                    &RightSide::Part(first),
                    &RightSide::Out(b, NewReact::Filled(k, place, r)),
                )
                .made(alloc)
            }
            _ => Err(RuleFault::NoMatch),
        },
        _ => Err(RuleFault::NoMatch),
    }
}

// `(par (out a R) (out b (bind x W (read a) S)))` to `(par (out a R) (out b S))`, where a is not b,
// x is not used in S, and S reads on every way all that R reads.
fn drop_read(alloc: Global, term: &Proto) -> Result<Proto, RuleFault>
    requires { HasRoom R.drop (protocol_of term.now) }
    ensures { Answers result (answer R.drop (protocol_of term.now)) }
{
    match term {
        Proto::Par(first, second) => match (&**first, &**second) {
            (Proto::Out(a, r), Proto::Out(b, React::Bind(_, read, s))) => match &**read {
                React::Read(e) => {
                    if !is_same(e, a) || is_same(a, b) {
                        return Err(RuleFault::NoMatch);
                    }
                    if uses(s, 0) {
                        return Err(RuleFault::Side(1));
                    }
                    match reads_anyway(alloc, r, s) {
                        Ok(true) => RightSide::Par(
                            &RightSide::Part(first),
                            &RightSide::Out(b, NewReact::Lowered(s)),
                        )
                        .made(alloc),
                        Ok(false) => Err(RuleFault::Side(2)),
                        Err(_) => Err(RuleFault::Memory),
                    }
                }
                _ => Err(RuleFault::NoMatch),
            },
            _ => Err(RuleFault::NoMatch),
        },
        _ => Err(RuleFault::NoMatch),
    }
}

// `(par (out a R) (out b S))` to `(par (out a R) (out b (bind x w (read c) S)))`, where a is not b,
// S reads a on every way, and R reads c on every way.
fn subsume(alloc: Global, name: &Name, width: u8, term: &Proto) -> Result<Proto, RuleFault>
    requires { HasRoom (R.subsume name.now width) (protocol_of term.now) }
    ensures { Answers result (answer (R.subsume name.now width) (protocol_of term.now)) }
{
    match term {
        Proto::Par(first, second) => match (&**first, &**second) {
            (Proto::Out(a, r), Proto::Out(b, s)) => {
                if is_same(a, b) {
                    return Err(RuleFault::NoMatch);
                }
                if !is_must_read(s, a) {
                    return Err(RuleFault::Side(1));
                }
                if !is_must_read(r, name) {
                    return Err(RuleFault::Side(2));
                }
                RightSide::Par(
                    &RightSide::Part(first),
                    &RightSide::Out(b, NewReact::After(name, width, s)),
                )
                .made(alloc)
            }
            _ => Err(RuleFault::NoMatch),
        },
        _ => Err(RuleFault::NoMatch),
    }
}

// `(out a R)` to `(out a (read a))`, where R reads a on every way.
fn diverge(alloc: Global, term: &Proto) -> Result<Proto, RuleFault>
    ensures { Answers result (answer R.diverge (protocol_of term.now)) }
{
    match term {
        Proto::Out(a, r) => {
            if !is_must_read(r, a) {
                return Err(RuleFault::Side(1));
            }
            RightSide::Out(a, NewReact::Read(a)).made(alloc)
        }
        _ => Err(RuleFault::NoMatch),
    }
}

// What the rule gives.
fn applied(alloc: Global, rule: &Rule, term: &Proto) -> Result<Proto, RuleFault>
    requires { HasRoom (rule_of rule.now) (protocol_of term.now) }
    ensures { Answers result (answer (rule_of rule.now) (protocol_of term.now)) }
{
    match rule {
        Rule::Comm => comm(alloc, term),
        Rule::Assocl => assocl(alloc, term),
        Rule::Assocr => assocr(alloc, term),
        Rule::Unit => unit(alloc, term),
        Rule::Newswap => newswap(alloc, term),
        Rule::Scope => scope(alloc, term),
        Rule::Rename(name) => rename(alloc, name, term),
        Rule::Absorb => absorb(alloc, term),
        Rule::Fold(place) => fold(alloc, place, term),
        Rule::Subst(place) => subst(alloc, place, term),
        Rule::Drop => drop_read(alloc, term),
        Rule::Subsume(name, width) => subsume(alloc, name, *width, term),
        Rule::Diverge => diverge(alloc, term),
        _ => Err(RuleFault::NoMatch),
    }
}

/// The right side of the rule for the protocol as its left side, in memory of its own. What is
/// asked of a left side comes in this order: its shape, the side conditions, and that the right
/// side is not too large, which is counted before anything is made. `absorb` and `drop` make sets
/// of names for a side condition, so memory may run out before that is told.
pub fn apply_proto(alloc: Global, rule: &Rule, term: &Proto) -> Result<Proto, RuleFault>
    requires { HasRoom (rule_of rule.now) (protocol_of term.now) }
    ensures value { IfOk result (λ new. answer (rule_of rule.now) (protocol_of term.now)
        ≡ gives (protocol_of new)) }
    ensures instance { IfOk result (λ new. IsProtocolInstance (rule_of rule.now)
        (protocol_of term.now) (protocol_of new)) }
    ensures within { IfOk result (λ new. protocol_nodes (protocol_of new) ≤ most_nodes) }

    ensures no_match { IsToldWhere result RuleFault.NoMatch
        (answer (rule_of rule.now) (protocol_of term.now) ≡ other_shape) }
    ensures side { (k : ℕ) → IsToldWhere result (RuleFault.Side k)
        (answer (rule_of rule.now) (protocol_of term.now) ≡ failing k) }
    ensures nodes { IsToldWhere result RuleFault.Nodes
        ((q : Protocol) × (answer (rule_of rule.now) (protocol_of term.now) ≡ gives q) ×
        (most_nodes < protocol_nodes q)) }
{
    applied(alloc, rule, term)
}
