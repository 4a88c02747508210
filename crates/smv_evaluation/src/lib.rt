//! Evaluation of an expression of an SMV model in a state.
#![tactic(auto)]

mod dotted;
mod evaluate;
mod fill;
mod literals;
mod model_value;
mod reached;
mod rows;

pub use literals::literals_are_words;
pub use model_value::value_at;
