// Positions of the reader in a response, and its result.

use crate::print::Steps;
use text_core::Place;

/// The next part that a reader expects in a response.
#[derive(Clone, Copy)]
pub enum Point {
    /// The fixed token of the head with this number, from 0.
    Head(u8),
    /// The system's name.
    System,
    /// The query's name.
    Query,
    /// A step, or the end of the steps.
    Steps,
    /// The number of a step.
    Number,
    /// The value of a variable in brackets, or the end of the step.
    Statements,
    /// The name of a variable.
    Variable,
    /// The value of the variable with this number.
    Value(usize),
    /// The value of an unknown variable.
    AnyValue,
    /// The closing bracket after a value.
    Stated,
    /// The end of the response.
    Last,
    /// Nothing more.
    Whole,
}

/// A failing test: the number of its kind, and its place.
#[derive(Clone, Copy)]
pub struct Failing {
    pub number: u8,
    pub place: Place,
}

/// A response: the number of the query, and the trace that meets it.
#[derive(Drop)]
pub struct Answered {
    pub query: u32,
    pub trace: Steps,
}
