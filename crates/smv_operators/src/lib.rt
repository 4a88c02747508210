//! SMV operators and functions on values, each by its definition.
#![tactic(auto)]

mod functions;
mod operators;
mod seen;

pub use functions::{call_one, call_two};
pub use operators::{
    Pair, Plain, apply, are_same_plain, implication, minus_of, negate, no_plain, pair_of,
    prefix_value, seen_of, selection,
};
pub use seen::{Seen, are_same, borrow_value, copy_value, into_value, no_seen, truth_of};
