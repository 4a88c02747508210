// Terms and named declarations.

use crate::data::{Datum, Sort, TermOp};
use text_core::{List, Name, Names};

/// A term.
///
/// `Variable(v, primed)` is variable number v. `Bound(i)` is the i-th name, from 0, that the surrounding `let`s bind,
/// outermost first. A `Let` has as many names as values. `Call(n, ..)` calls function number n.
#[derive(Drop)]
pub enum Term {
    Constant(Datum),
    Variable(u32, bool),
    Bound(u32),
    Apply(TermOp, Terms),
    Let(Names, Terms, Box<Term>),
    Call(u32, Terms),
}

/// A sequence of terms.
pub type Terms = Vec<Term>;

/// A variable or a parameter.
#[derive(Drop)]
pub struct Variable {
    pub name: Name,
    pub sort: Sort,
}

/// A list of variables.
pub type Variables = List<Variable>;

/// An enumeration sort and its constants.
#[derive(Drop)]
pub struct Enumeration {
    pub name: Name,
    pub constants: Names,
}

/// A defined sort.
#[derive(Drop)]
pub struct NamedSort {
    pub name: Name,
    pub sort: Sort,
}

/// A function.
///
/// Its body is a term whose variables are the parameters, and calls only earlier functions.
#[derive(Drop)]
pub struct Function {
    pub name: Name,
    pub parameters: Variables,
    pub result: Sort,
    pub body: Term,
}

/// The values of all variables, one for each.
pub type Env = List<Datum>;
