//! A test that `agree` answers where memory is there, which no contract can say.

use crate::{Agreement, agree};
use ipdl_base::{Bits, List};
use ipdl_sig::Sig;
use ipdl_term::{Condition, Expr};
use std::alloc::Global;
use std::test::Fail;

// The depth of the only variable of a valuation, and its value.
fn only(valuation: &List<(u32, Bits)>) -> Option<(u32, u128)> {
    match valuation.as_slice() {
        [(depth, value)] => Some((*depth, value.value())),
        _ => None,
    }
}

// Whether the variable in the middle, of one bit, is first other than the literal at this value,
// where binders of 7 and of 3 bits are around it and inside of it.
fn differs_at(alloc: Global, literal: Bits, value: u128) -> bool {
    let sig = Sig::empty(alloc);
    match agree(
        alloc,
        &sig,
        &[7, 1, 3],
        &Expr::Var(1),
        &Expr::Lit(literal),
        &[],
    ) {
        Ok(Agreement::Differ(valuation)) => only(&valuation) == Some((1, value)),
        _ => false,
    }
}

// Whether it is the literal where a condition says that it is set.
fn is_where_set(alloc: Global, literal: Bits) -> bool {
    let sig = Sig::empty(alloc);
    let set = [Condition {
        test: Expr::Var(1),
        value: true,
    }];
    match agree(
        alloc,
        &sig,
        &[7, 1, 3],
        &Expr::Var(1),
        &Expr::Lit(literal),
        &set,
    ) {
        Ok(Agreement::Same) => true,
        _ => false,
    }
}

#[test]
fn compares_a_variable_and_literals(rt: HostRuntime) -> Result<(), Fail> {
    let zero = Bits::new(1, 0).ok_or("zero")?;
    let one = Bits::new(1, 1).ok_or("one")?;
    assert!(rt; differs_at(rt.alloc(), zero, 1) && differs_at(rt.alloc(), one, 0));
    assert!(rt; is_where_set(rt.alloc(), one) && !is_where_set(rt.alloc(), zero));
    Ok(())
}
