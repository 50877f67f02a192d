//! Printing: one term of each kind, and variables by the depth of their binders.

use ipdl_base::{Bits, NoMemory};
use ipdl_printing::{show_expr, show_proto, show_react};
use ipdl_sig::Sig;
use ipdl_term::{Expr, Proto, React};
use std::alloc::Global;

// Whether this text was made.
pub(crate) fn is_text(shown: Result<Vec<u8>, NoMemory>, text: &str) -> bool {
    match &shown {
        Ok(bytes) => bytes.as_slice() == text.as_bytes(),
        Err(_) => false,
    }
}

fn shows_bits(alloc: Global, sig: &Sig) -> bool {
    match Bits::new(3, 2) {
        Some(two) => is_text(show_expr(alloc, sig, 0, &Expr::Lit(two)), "#010"),
        None => false,
    }
}

#[test]
fn shows_terms(rt: HostRuntime) {
    let alloc = rt.alloc();
    let sig = Sig::empty(alloc);
    assert!(rt; shows_bits(alloc, &sig));
    assert!(rt; is_text(show_expr(alloc, &sig, 0, &Expr::Outer(3)), "x3"));
    assert!(rt;
        is_text(
            show_expr(alloc, &sig, u32::MAX, &Expr::Var(0)),
            "x4294967294"
        )
    );
    assert!(rt;
        is_text(
            show_react(alloc, &sig, 1, &React::Ret(Expr::Var(0))),
            "(ret x0)"
        )
    );
    assert!(rt; is_text(show_proto(alloc, &sig, &Proto::Nil), "(nil)"));
}
