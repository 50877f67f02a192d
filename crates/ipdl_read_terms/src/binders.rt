//! The binders around a place, as a list of borrowed names.

ghost use Rattle.std.specs.Prelude.{◌≡◌, ◌^◌, ◌<◌, length, IfSome};
ghost use Rattle.ipdl_forms.specs.Scopes.{binder_among};
ghost use Rattle.ipdl_read_terms.specs.Binders.{binder_names};

use ipdl_base::Name;

/// The names of the binders around a place, so that going inside copies nothing.
#[derive(Clone, Copy)]
pub enum Binders<'a> {
    // There is none.
    Outermost,
    // One inside all others.
    Inner(&'a Binders<'a>, &'a Name),
}

impl Binders<'_> {
    /// How far the innermost binder of the name is from the place.
    pub fn number(&self, name: &Name) -> Option<u32>
        requires { length (binder_names self.now) < 2 ^ 32 }
        ensures value { result ≡ binder_among (binder_names self.now) name.now }
        ensures within { IfSome result (λ n. n < length (binder_names self.now)) }
    {
        match self {
            Binders::Outermost => None,
            Binders::Inner(outside, held) => {
                if *held == name {
                    return Some(0);
                }
                Some(outside.number(name)? + 1)
            }
        }
    }
}
