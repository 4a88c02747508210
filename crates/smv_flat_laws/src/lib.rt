//! Laws of flat SMV models and rows of values.
//!
//! Each state and label has one row, and the flat formulas are true in rows exactly where the model's are in the
//! states.
#![tactic(auto)]

mod laws;

pub use laws::{flat_is_ordered, numbers_lie, row_is_one, row_is_there, same_truth};
