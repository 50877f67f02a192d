//! A test that both calls answer where memory is there, which no contract can say.

use crate::{ShapeFault, shape, tidy};
use ipdl_base::{Name, NoMemory};
use ipdl_term::{Expr, Proto, React, boxed};
use std::alloc::Global;
use std::test::Fail;

// Whether `(bind x 1 (read m) (ret x))` becomes the `read`.
fn is_tidied(alloc: Global, m: Name) -> Result<bool, NoMemory> {
    let read = boxed(alloc, Ok(React::Read(m)))?;
    let term = React::Bind(1, read, boxed(alloc, Ok(React::Ret(Expr::Var(0))))?);
    match tidy(alloc, &term) {
        Ok(React::Read(_)) => Ok(true),
        _ => Ok(false),
    }
}

// Whether a hidden channel of the name of a free one is told.
fn is_refused(alloc: Global, c: Name) -> Result<bool, NoMemory> {
    let out = boxed(alloc, Ok(Proto::Out(c.copy(alloc)?, React::Flip(1))))?;
    let hidden = Proto::Hide(c, 1, boxed(alloc, Ok(Proto::Nil))?);
    match shape(alloc, &Proto::Par(out, boxed(alloc, Ok(hidden))?)) {
        Err(ShapeFault::NamesRepeat { .. }) => Ok(true),
        _ => Ok(false),
    }
}

#[test]
fn tidies_and_shapes(rt: HostRuntime) -> Result<(), Fail> {
    let alloc = rt.alloc();
    let m = Name::read(alloc, "m").ok().ok_or("m")?;
    let c = Name::read(alloc, "c").ok().ok_or("c")?;
    assert!(rt; is_tidied(alloc, m).unwrap_or(false));
    assert!(rt; is_refused(alloc, c).unwrap_or(false));
    assert!(rt; shape(alloc, &Proto::Nil).is_ok());
    Ok(())
}
