//! The width of the integers of a flat model.
#![tactic(auto)]

mod fronts;
mod laws;
mod width;

pub use laws::{interval_width_is_least, same_model_width, same_width, width_is_least};
pub use width::width_of;
