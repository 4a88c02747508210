//! Types of SMV expressions, with integer intervals.
#![tactic(auto)]

mod intervals;
mod operators;
mod types;

pub use intervals::{
    abs_type, difference_type, hull, interval_within_limit, max_type, min_type, negation_type,
    ordered_interval, product_type, quotient_type, rest_type, sum_type, type_within_limit,
};
pub use operators::infix_type;
pub use types::Ty;
