//! What names stand for where an expression is read.

ghost use Rattle.std.specs.Prelude.{◌≡◌, ◌<◌, ◌≤◌, ◌^◌, length};
ghost use Rattle.ipdl_read_terms.specs.Binders.{binder_names};
ghost use Rattle.ipdl_forms.specs.Scopes.{bound_number, free_number, outer_number, number_spelled, number_on, under_binder};
ghost use Rattle.ipdl_read_terms.specs.Binders.{scope_of};

use crate::binders::Binders;
use ipdl_base::Name;
use ipdl_sig::Sig;

/// What names stand for where an expression is read.
#[derive(Clone, Copy)]
pub struct NameScope<'a> {
    // The symbols that are declared before.
    pub sig: &'a Sig,
    // The binders around.
    pub binders: Binders<'a>,
    // Whether binders outside of the tree may be named, as in the arguments of a step.
    pub in_step: bool,
}

impl<'a> NameScope<'a> {
    /// The number of the binder that the name has.
    pub fn bound_number(&self, name: &Name) -> Option<u32>
        requires { length (binder_names self.now.binders) < 2 ^ 32 }
        ensures { result ≡ bound_number (scope_of self.now) name.now }
    {
        self.binders.number(name)
    }

    /// The depth of the binder outside that the name tells.
    pub fn free_number(&self, name: &Name) -> Option<u32>
        requires { length (binder_names self.now.binders) < 2 ^ 32 }
        ensures { result ≡ free_number (scope_of self.now) name.now }
    {
        if self.in_step && self.bound_number(name).is_none() {
            outer_number(name)
        } else {
            None
        }
    }
}

// The depth that a name `xn` tells.
fn outer_number(name: &Name) -> Option<u32>
    ensures { result ≡ outer_number name.now }
{
    match name.text().as_bytes() {
        [first, digits @ ..] if *first == b'x' => number_spelled(digits),
        _ => None,
    }
}

// The number that the digits spell.
fn number_spelled(digits: &[u8]) -> Option<u32>
    ensures { result ≡ number_spelled digits.now }
{
    match digits {
        [first, rest @ ..] if first.is_ascii_digit() => number_on(u32::from(*first - b'0'), rest),
        _ => None,
    }
}

// The number that goes on with the digits.
fn number_on(number: u32, digits: &[u8]) -> Option<u32>
    ensures { result ≡ number_on number digits.now }
{
    match digits {
        [] => Some(number),
        [digit, rest @ ..] => {
            if number == 0 || !digit.is_ascii_digit() {
                return None;
            }
            let more = number
                .checked_mul(10)?
                .checked_add(u32::from(*digit - b'0'))?;
            number_on(more, rest)
        }
    }
}
