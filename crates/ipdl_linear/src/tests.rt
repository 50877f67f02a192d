//! A test that `same_form` answers where memory is there, which no contract can say.

ghost use Rattle.std.specs.Prelude.{◌<◌};

use crate::{Likeness, LinearFault, same_form};
use ipdl_sig::Sig;
use ipdl_term::Expr;
use std::alloc::Global;
use std::test::Fail;

// Whether two variables of one bit each, by their numbers, have the same form.
fn answer(alloc: Global, left: u32, right: u32) -> Result<Likeness, LinearFault>
    requires left { left < 2 }
    requires right { right < 2 }
{
    let sig = Sig::empty(alloc);
    same_form(alloc, &sig, &[1, 1], &Expr::Var(left), &Expr::Var(right))
}

#[test]
fn compares_variables(rt: HostRuntime) -> Result<(), Fail> {
    assert!(rt; answer(rt.alloc(), 0, 0) == Ok(Likeness::Same));
    assert!(rt; answer(rt.alloc(), 0, 1) == Ok(Likeness::Differ { bit: 0 }));
    Ok(())
}
