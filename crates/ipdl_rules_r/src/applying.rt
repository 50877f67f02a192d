//! The call that makes the right side of a rule, and one small function for each rule.

ghost use Rattle.std.specs.Prelude.{◌≡◌, ◌↔◌, ◌∷◌, [], ℕ, ◌<◌, ◌≤◌, IfOk, IsTrue, false, true};
ghost use Rattle.ipdl_rules_r.specs.Answers.{Answers};
ghost use Rattle.ipdl_rules_r.specs.Instances.{IsReactionInstance};
ghost use Rattle.ipdl_rules_r.specs.Matching.{answer, failing, gives, other_shape};
ghost use Rattle.ipdl_rules_r.specs.Room.{HasRoom};
ghost use Rattle.ipdl_term.specs.Interpretations.{Signature};
ghost use Rattle.ipdl_term.specs.Rules as R;
ghost use Rattle.ipdl_term.specs.Sizes.{most_nodes, reaction_nodes};
ghost use Rattle.ipdl_term.specs.Steps.{rule_of};
ghost use Rattle.ipdl_term.specs.Terms.{Reaction};
ghost use Rattle.ipdl_term.specs.Variables.{expression_uses};
ghost use Rattle.ipdl_term.specs.Views.{expression_of, reaction_of};
ghost use Rattle.ipdl_typing.specs.Signatures.{signature_of};

use crate::again::is_lowered;
use crate::fault::RuleFault;
use crate::right_side::{NewValue, RightSide, no_bits};
use crate::tables::{all_different, table_on};
use ipdl_base::Bits;
use ipdl_sig::Sig;
use ipdl_term::{Expr, React, Rule, has_flip, has_read, uses, uses_in_expr};
use std::alloc::Global;

// `(bind x W (ret E) R)` to R with E for x.
fn beta(alloc: Global, term: &React) -> Result<React, RuleFault>
    requires { HasRoom R.beta (reaction_of term.now) }
    ensures { (sig : Signature) → Answers result (answer sig R.beta (reaction_of term.now)) }
{
    match term {
        React::Bind(_, first, s) => match &**first {
            React::Ret(e) => RightSide::Put(s, NewValue::Part(e)).made(alloc),
            _ => Err(RuleFault::NoMatch),
        },
        _ => Err(RuleFault::NoMatch),
    }
}

// `(bind x W R (ret x))` to R.
#[tactic(auto, using(crate::proofs::Found::shapes))]
fn eta(alloc: Global, term: &React) -> Result<React, RuleFault>
    ensures { (sig : Signature) → Answers result (answer sig R.eta (reaction_of term.now)) }
{
    match term {
        React::Bind(_, r, rest) => match &**rest {
            React::Ret(Expr::Var(n)) => {
                if *n != 0 {
                    return Err(RuleFault::NoMatch);
                }
                RightSide::Part(r).made(alloc)
            }
            _ => Err(RuleFault::NoMatch),
        },
        _ => Err(RuleFault::NoMatch),
    }
}

// `(bind y W (bind x V R S) T)` to `(bind x V R (bind y W S T))`.
fn assoc(alloc: Global, term: &React) -> Result<React, RuleFault>
    requires { HasRoom R.assoc (reaction_of term.now) }
    ensures { (sig : Signature) → Answers result (answer sig R.assoc (reaction_of term.now)) }
{
    match term {
        React::Bind(w, first, t) => match &**first {
            React::Bind(v, r, s) => RightSide::Bind(
                *v,
                &RightSide::Part(r),
                &RightSide::Bind(*w, &RightSide::Part(s), &RightSide::Lifted(t, 1)),
            )
            .made(alloc),
            _ => Err(RuleFault::NoMatch),
        },
        _ => Err(RuleFault::NoMatch),
    }
}

// `(bind x V R (bind y W S T))` to `(bind y W S (bind x V R T))`, where x is not used in S.
fn swap(alloc: Global, term: &React) -> Result<React, RuleFault>
    requires { HasRoom R.swap (reaction_of term.now) }
    ensures { (sig : Signature) → Answers result (answer sig R.swap (reaction_of term.now)) }
{
    match term {
        React::Bind(v, r, rest) => match &**rest {
            React::Bind(w, s, t) => {
                if uses(s, 0) {
                    return Err(RuleFault::Side(1));
                }
                RightSide::Bind(
                    *w,
                    &RightSide::Lowered(s),
                    &RightSide::Bind(*v, &RightSide::Lifted(r, 0), &RightSide::Exchanged(t)),
                )
                .made(alloc)
            }
            _ => Err(RuleFault::NoMatch),
        },
        _ => Err(RuleFault::NoMatch),
    }
}

// `(bind x W R S)` to S, where x is not used in S and R has no `read`.
fn dropr(alloc: Global, term: &React) -> Result<React, RuleFault>
    requires { HasRoom R.dropr (reaction_of term.now) }
    ensures { (sig : Signature) → Answers result (answer sig R.dropr (reaction_of term.now)) }
{
    match term {
        React::Bind(_, first, rest) => {
            if uses(rest, 0) {
                return Err(RuleFault::Side(1));
            }
            if has_read(first) {
                return Err(RuleFault::Side(2));
            }
            RightSide::Lowered(rest).made(alloc)
        }
        _ => Err(RuleFault::NoMatch),
    }
}

// `(bind x W R (bind y W R T))` to `(bind x W R T)` with x for y, where R has no `flip`, and the
// second R not x.
fn again(alloc: Global, term: &React) -> Result<React, RuleFault>
    requires { HasRoom R.again (reaction_of term.now) }
    ensures { (sig : Signature) → Answers result (answer sig R.again (reaction_of term.now)) }
{
    match term {
        React::Bind(v, r, rest) => match &**rest {
            React::Bind(w, q, t) => {
                if uses(q, 0) {
                    return Err(RuleFault::Side(1));
                }
                if *v != *w || !is_lowered(q, r) {
                    return Err(RuleFault::Side(2));
                }
                if has_flip(r) {
                    return Err(RuleFault::Side(3));
                }
                RightSide::Bind(
                    *v,
                    &RightSide::Part(r),
                    &RightSide::Put(t, NewValue::Var(0)),
                )
                .made(alloc)
            }
            _ => Err(RuleFault::NoMatch),
        },
        _ => Err(RuleFault::NoMatch),
    }
}

// Whether the bits are one bit, which is set.
fn is_one(bits: &Bits) -> bool
    ensures { IsTrue result ↔ (bits.now ≡ true ∷ []) }
{
    bits.width() == 1 && bits.value() == 1
}

// Whether the bits are one bit, which is not set.
fn is_zero(bits: &Bits) -> bool
    ensures { IsTrue result ↔ (bits.now ≡ false ∷ []) }
{
    bits.width() == 1 && bits.value() == 0
}

// `(if #b1 R S)` to R.
#[tactic(auto, using(crate::proofs::Found::shapes))]
fn iftrue(alloc: Global, term: &React) -> Result<React, RuleFault>
    ensures { (sig : Signature) → Answers result (answer sig R.iftrue (reaction_of term.now)) }
{
    match term {
        React::Cond(Expr::Lit(bits), r, _) => {
            if !is_one(bits) {
                return Err(RuleFault::NoMatch);
            }
            RightSide::Part(r).made(alloc)
        }
        _ => Err(RuleFault::NoMatch),
    }
}

// `(if #b0 R S)` to S.
#[tactic(auto, using(crate::proofs::Found::shapes))]
fn iffalse(alloc: Global, term: &React) -> Result<React, RuleFault>
    ensures { (sig : Signature) → Answers result (answer sig R.iffalse (reaction_of term.now)) }
{
    match term {
        React::Cond(Expr::Lit(bits), _, s) => {
            if !is_zero(bits) {
                return Err(RuleFault::NoMatch);
            }
            RightSide::Part(s).made(alloc)
        }
        _ => Err(RuleFault::NoMatch),
    }
}

// `(if E R R)` to R.
fn ifsame(alloc: Global, term: &React) -> Result<React, RuleFault>
    ensures { (sig : Signature) → Answers result (answer sig R.ifsame (reaction_of term.now)) }
{
    match term {
        React::Cond(_, r, s) => {
            if **r != **s {
                return Err(RuleFault::Side(1));
            }
            RightSide::Part(r).made(alloc)
        }
        _ => Err(RuleFault::NoMatch),
    }
}

// `(bind x W (if E R S) T)` to `(if E (bind x W R T) (bind x W S T))`.
fn ifbind(alloc: Global, term: &React) -> Result<React, RuleFault>
    ensures { (sig : Signature) → Answers result (answer sig R.ifbind (reaction_of term.now)) }
{
    match term {
        React::Bind(w, first, t) => match &**first {
            React::Cond(e, r, s) => RightSide::Cond(
                e,
                &RightSide::Bind(*w, &RightSide::Part(r), &RightSide::Part(t)),
                &RightSide::Bind(*w, &RightSide::Part(s), &RightSide::Part(t)),
            )
            .made(alloc),
            _ => Err(RuleFault::NoMatch),
        },
        _ => Err(RuleFault::NoMatch),
    }
}

// `(bind x W (flip W) S)` with `(xor x E)` for x in S, where x is not used in E.
fn mask(alloc: Global, masking: &Expr, term: &React) -> Result<React, RuleFault>
    requires { HasRoom (R.mask (expression_of masking.now)) (reaction_of term.now) }
    ensures { (sig : Signature) →
        Answers result (answer sig (R.mask (expression_of masking.now)) (reaction_of term.now)) }
{
    match term {
        React::Bind(w, first, s) => match &**first {
            React::Flip(v) => {
                if *w != *v {
                    return Err(RuleFault::NoMatch);
                }
                if uses_in_expr(masking, 0) {
                    return Err(RuleFault::Side(1));
                }
                RightSide::Bind(
                    *w,
                    &RightSide::Flip(*w),
                    &RightSide::Replaced(s, NewValue::Masked(masking)),
                )
                .made(alloc)
            }
            _ => Err(RuleFault::NoMatch),
        },
        _ => Err(RuleFault::NoMatch),
    }
}

// `(bind x W (flip W) S)` with `(f x)` for x in S, where f is a table from W bits to W bits of
// which all values are different.
fn perm(alloc: Global, sig: &Sig, symbol: u32, term: &React) -> Result<React, RuleFault>
    requires { HasRoom (R.perm symbol) (reaction_of term.now) }
    ensures { Answers result (answer (signature_of sig.now) (R.perm symbol) (reaction_of term.now)) }
{
    match term {
        React::Bind(w, first, s) => match &**first {
            React::Flip(v) => {
                if *w != *v {
                    return Err(RuleFault::NoMatch);
                }
                let Some(values) = table_on(sig, symbol, *w) else {
                    return Err(RuleFault::Side(1));
                };
                if !all_different(values.as_slice()) {
                    return Err(RuleFault::Side(2));
                }
                RightSide::Bind(
                    *w,
                    &RightSide::Flip(*w),
                    &RightSide::Replaced(s, NewValue::Mapped(symbol)),
                )
                .made(alloc)
            }
            _ => Err(RuleFault::NoMatch),
        },
        _ => Err(RuleFault::NoMatch),
    }
}

// `(bind x V (flip V) (bind y W (flip W) S))` to `(bind z V+W (flip V+W) S)` with the first V bits
// of z for x and the others for y, where V + W is at most 128.
fn join(alloc: Global, term: &React) -> Result<React, RuleFault>
    requires { HasRoom R.join (reaction_of term.now) }
    ensures { (sig : Signature) → Answers result (answer sig R.join (reaction_of term.now)) }
{
    match term {
        React::Bind(v, first, rest) => match &**first {
            React::Flip(n) => match &**rest {
                React::Bind(w, second, s) => match &**second {
                    React::Flip(m) => {
                        if *v != *n || *w != *m {
                            return Err(RuleFault::NoMatch);
                        }
                        if u16::from(*v) + u16::from(*w) > 128 {
                            return Err(RuleFault::Side(1));
                        }
                        RightSide::Bind(
                            *v + *w,
                            &RightSide::Flip(*v + *w),
                            &RightSide::Joined(*v, *w, s),
                        )
                        .made(alloc)
                    }
                    _ => Err(RuleFault::NoMatch),
                },
                _ => Err(RuleFault::NoMatch),
            },
            _ => Err(RuleFault::NoMatch),
        },
        _ => Err(RuleFault::NoMatch),
    }
}

// `(flip 0)` to the literal of no bits.
#[tactic(auto, using(crate::proofs::Found::shapes))]
fn flip0(term: &React) -> Result<React, RuleFault>
    ensures { (sig : Signature) → Answers result (answer sig R.flip0 (reaction_of term.now)) }
{
    match term {
        React::Flip(n) => {
            if *n != 0 {
                return Err(RuleFault::NoMatch);
            }
            Ok(React::Ret(no_bits()))
        }
        _ => Err(RuleFault::NoMatch),
    }
}

// What the rule gives.
fn applied(alloc: Global, sig: &Sig, rule: &Rule, term: &React) -> Result<React, RuleFault>
    requires { HasRoom (rule_of rule.now) (reaction_of term.now) }
    ensures { Answers result (answer (signature_of sig.now) (rule_of rule.now) (reaction_of term.now)) }
{
    match rule {
        Rule::Beta => beta(alloc, term),
        Rule::Eta => eta(alloc, term),
        Rule::Assoc => assoc(alloc, term),
        Rule::Swap => swap(alloc, term),
        Rule::Dropr => dropr(alloc, term),
        Rule::Again => again(alloc, term),
        Rule::Iftrue => iftrue(alloc, term),
        Rule::Iffalse => iffalse(alloc, term),
        Rule::Ifsame => ifsame(alloc, term),
        Rule::Ifbind => ifbind(alloc, term),
        Rule::Mask(e) => mask(alloc, e, term),
        Rule::Perm(f) => perm(alloc, sig, *f, term),
        Rule::Join => join(alloc, term),
        Rule::Flip0 => flip0(term),
        _ => Err(RuleFault::NoMatch),
    }
}

/// The right side of the rule for the reaction as its left side, in memory of its own. What is
/// asked of a left side comes in this order: its shape, the side conditions, and that the right
/// side is not too large, which is counted before anything is made. The variables of the rule and
/// of the reaction must have room in 32 bits.
pub fn apply_react(alloc: Global, sig: &Sig, rule: &Rule, term: &React) -> Result<React, RuleFault>
    requires { HasRoom (rule_of rule.now) (reaction_of term.now) }

    ensures value { IfOk result (λ new.
        answer (signature_of sig.now) (rule_of rule.now) (reaction_of term.now)
        ≡ gives (reaction_of new)) }
    ensures instance { IfOk result (λ new. IsReactionInstance (signature_of sig.now)
        (rule_of rule.now) (reaction_of term.now) (reaction_of new)) }
    ensures within { IfOk result (λ new. reaction_nodes (reaction_of new) ≤ most_nodes) }

    ensures no_match { (result ≡ Err RuleFault.NoMatch) ↔
        (answer (signature_of sig.now) (rule_of rule.now) (reaction_of term.now) ≡ other_shape) }
    ensures side { (k : ℕ) → (result ≡ Err (RuleFault.Side k)) ↔
        (answer (signature_of sig.now) (rule_of rule.now) (reaction_of term.now) ≡ failing k) }
    ensures nodes { (result ≡ Err RuleFault.Nodes) ↔ ((q : Reaction) ×
        (answer (signature_of sig.now) (rule_of rule.now) (reaction_of term.now) ≡ gives q) ×
        (most_nodes < reaction_nodes q)) }
{
    applied(alloc, sig, rule, term)
}
