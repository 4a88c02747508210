//! Lowers runs of SMV models to witnesses of the BTOR2 lines that lay the models' systems out.
#![tactic(auto)]

mod frames;
mod laws;
mod lower;
mod words;

pub use laws::{lowered_are_accepted, lowered_round_trip};
pub use lower::{LowerEnd, lower_flat, lower_numbered, lower_smv};
