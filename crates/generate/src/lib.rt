//! The command `generate`: a generated model of any number of cells and its witness, translated, lifted and judged.
#![tactic(auto)]

mod chain;
mod laws;
mod made;
mod texts;

pub use laws::{inputs_are_variables, one_generated};
pub use made::generate;
pub use texts::{made_model, made_witness};
