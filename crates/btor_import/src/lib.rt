//! The translation of BTOR2 lines to a MoXI script.
#![tactic(auto)]

mod laws;
mod numbers;
mod operators;
mod parts;
mod script;
mod terms;
mod variables;

pub use laws::{names_are_spellable, scripts_are_spelled, scripts_are_valid};
pub use script::import_btor;
