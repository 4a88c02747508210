//! The flat system of a MoXI script, and its size.
//!
//! It is what the check instantiates, as one list of variables with the formulas of all instances.
#![tactic(auto)]

mod flat_laws;
mod limits;

pub use flat_laws::{
    flat_systems_are_sorted, flat_systems_have_sizes, flat_traces_are_judged,
    single_systems_are_flat, traces_have_flat_traces,
};
pub use limits::{DEEPEST, HIGHEST, LARGEST};
