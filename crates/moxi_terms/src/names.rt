// Meanings of names.

use crate::data::{Datum, Sort, TermOp};

/// The meaning of a bare name: a bound name or a variable by its number, with its sort if known; a constant; or a
/// parameterless function by its number.
#[derive(Clone, Copy)]
pub enum Meaning {
    Bound(u32, Option<Sort>),
    Variable(u32, Option<Sort>),
    Value(Datum, Sort),
    Call(u32, Sort),
}

/// The meaning of the head of an application: an operator, or the number of a function with parameters.
#[derive(Clone, Copy)]
pub enum Head {
    Operator(TermOp),
    Function(u32),
}
