//! Places in a term while it is walked through, and the checks of one width.

ghost use Rattle.std.specs.Prelude.{◌≡◌, ◌==◌, ◌+◌, nat_le, IfOk};
ghost use Rattle.ipdl_typing.specs.Answers.{cause_of, Tells, AnswersChecks, AnswersWidth};
ghost use Rattle.ipdl_typing.specs.Checks.{checked, width};
ghost use Rattle.ipdl_typing.specs.Places.{path_of};

use crate::fault::{Ill, IllCause, TypeFault};
use ipdl_base::{NoMemory, Path};
use std::alloc::Global;

// The greatest width of a value.
const GREATEST_WIDTH: u8 = 128;

// A place in the term as the way down to it, each step held by the call that took it. So going
// down takes no memory, and a path is made only where a check fails.
#[derive(Clone, Copy)]
pub(crate) enum Place<'a> {
    // The whole term.
    Root,
    // The child of this number, counted from 0.
    Child(&'a Place<'a>, u32),
}

impl Place<'_> {
    // The path to the place.
    fn path(&self, alloc: Global) -> Result<Path, NoMemory>
        ensures { IfOk result (λ path. path ≡ path_of self.now) }
    {
        match self {
            Place::Root => Ok(Path::root(alloc)),
            Place::Child(above, number) => {
                let mut path = above.path(alloc)?;
                path.push(*number)?;
                Ok(path)
            }
        }
    }

    // The fault of this cause here. What a fault wants stays out of the frames of the functions that
    // walk through a term, since a term may have thousands of levels.
    #[cold]
    #[inline(never)]
    pub(crate) fn fault(&self, alloc: Global, cause: IllCause) -> TypeFault
        ensures { Tells result (record { path = path_of self.now; cause = cause_of cause }) }
    {
        match self.path(alloc) {
            Ok(path) => TypeFault::Ill(Ill { path, cause }),
            Err(_) => TypeFault::Memory,
        }
    }

    // Checks that the width here is the wanted one.
    #[inline(never)]
    pub(crate) fn expect_width(&self, alloc: Global, want: u8, got: u8) -> Result<(), TypeFault>
        ensures { AnswersChecks result (checked (got == want) (path_of self.now) (width want got)) }
    {
        if got == want {
            return Ok(());
        }
        Err(self.fault(
            alloc,
            IllCause::Width {
                want: u16::from(want),
                got: u16::from(got),
            },
        ))
    }

    // Checks that the width that is declared here is one that values may have.
    #[inline(never)]
    pub(crate) fn expect_allowed(&self, alloc: Global, got: u8) -> Result<(), TypeFault>
        ensures { AnswersChecks result (checked (nat_le got 128) (path_of self.now) (width 128 got)) }
    {
        if got <= GREATEST_WIDTH {
            return Ok(());
        }
        Err(self.fault(
            alloc,
            IllCause::Width {
                want: u16::from(GREATEST_WIDTH),
                got: u16::from(got),
            },
        ))
    }

    // The sum of two widths, if it is a width that values may have.
    #[inline(never)]
    pub(crate) fn expect_sum(&self, alloc: Global, high: u8, low: u8) -> Result<u8, TypeFault>
        ensures { AnswersWidth result (high + low)
            (checked (nat_le (high + low) 128) (path_of self.now) (width 128 (high + low))) }
    {
        let got = u16::from(high) + u16::from(low);
        if got <= u16::from(GREATEST_WIDTH) {
            return Ok(high + low);
        }
        Err(self.fault(
            alloc,
            IllCause::Width {
                want: u16::from(GREATEST_WIDTH),
                got,
            },
        ))
    }

    // Checks that so many bits behind the first ones are within the width here.
    #[inline(never)]
    pub(crate) fn expect_within(
        &self,
        alloc: Global,
        from: u8,
        count: u8,
        got: u8,
    ) -> Result<(), TypeFault>
        ensures { AnswersChecks result
            (checked (nat_le (from + count) got) (path_of self.now) (width (from + count) got)) }
    {
        let want = u16::from(from) + u16::from(count);
        let got = u16::from(got);
        if want <= got {
            return Ok(());
        }
        Err(self.fault(alloc, IllCause::Width { want, got }))
    }
}
