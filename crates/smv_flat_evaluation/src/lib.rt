//! Evaluation of flat SMV expressions over rows of values, which are lists indexed by the numbers of items.
#![tactic(auto)]

mod evaluation;
mod laws;

pub use evaluation::{evaluate, item_at, permits};
pub use laws::forms_are_safe;
