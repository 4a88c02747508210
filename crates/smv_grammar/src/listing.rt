// Lists in brackets.

use smv_text::Function;

/// The kind of list that is between brackets.
#[derive(Clone, Copy)]
pub enum Listing {
    /// The arguments of a function.
    Arguments(Function),
    /// The elements of a set.
    Elements,
}
