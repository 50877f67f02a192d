//! Atoms and forms over numbers.

/// An atom over the numbers of forms, or a form over the numbers of its atoms.
#[derive(PartialEq, Eq, Hash, Drop)]
pub(crate) enum Node {
    /// The constant 1.
    One,
    /// The bit of the variable of this number at this place.
    Variable(u32, usize),
    /// The product of two forms, that of the lesser number first.
    Product(usize, usize),
    /// Whether all these forms are 0.
    AllZero(Vec<usize>),
    /// The bit at the place of this symbol's value at the argument whose bits have these forms.
    SymbolBit(u32, Vec<usize>, usize),
    /// The form of these atoms, in order.
    Sum(Vec<usize>),
}
