//! Computes the terms, variables and formulas of the MoXI script of a flat form.
#![tactic(auto)]

mod chains;
mod coding;
mod constants;
mod formulas;
mod functions;
mod operands;
mod operators;
mod parts;
mod readings;
mod small_flat;
mod terms;
mod variables;

pub use coding::{Coding, Question, Subject};
pub use formulas::{FlatChains, flat_chains, formula_of};
pub use operators::negate;
pub use small_flat::SmallFlat;
pub use terms::terms_of;
pub use variables::{Group, places_of, variables_in};
