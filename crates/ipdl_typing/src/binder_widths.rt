//! The widths of the binders around a place, without a copy for each binder.

ghost use Rattle.std.specs.Prelude.{◌≡◌, slice_get};
ghost use Rattle.ipdl_typing.specs.BinderWidths.{widths_of};

// The widths of the binders around a place.
#[derive(Clone, Copy)]
pub(crate) enum BinderWidths<'a> {
    // These, from the outermost.
    Given(&'a [u8]),
    // One inside all others.
    Inner(&'a BinderWidths<'a>, u8),
}

impl BinderWidths<'_> {
    // The width of the variable of this number.
    pub(crate) fn width(&self, number: u32) -> Option<u8>
        ensures { result ≡ slice_get (widths_of self.now) number }
    {
        match self {
            BinderWidths::Given(widths) => {
                let index = widths.len().checked_sub(number as usize)?.checked_sub(1)?;
                widths.get(index).copied()
            }
            BinderWidths::Inner(outside, width) => match number.checked_sub(1) {
                None => Some(*width),
                Some(outer) => outside.width(outer),
            },
        }
    }
}
