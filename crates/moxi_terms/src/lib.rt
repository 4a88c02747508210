//! Sorts, terms and scopes of MoXI as values, and the evaluation of terms.
#![tactic(auto)]

mod data;
mod evaluate;
mod names;
mod operate;
mod scope;
mod term;
mod words;

pub use data::{Datum, Primes, Sort, TermOp};
pub use evaluate::{eval, values_have_sorts};
pub use names::{Head, Meaning};
pub use operate::is_comparison;
pub use scope::Scope;
pub use term::{Enumeration, Env, Function, NamedSort, Term, Terms, Variable, Variables};
pub use words::{is_indexed, is_left_out, is_left_out_sort};
