//! Laws of the script of an SMV model.
//!
//! Its terms have the values of the model's expressions. Its traces that meet a query are the model's runs that break
//! an invariant. It is well formed and can be printed and read. Its size is bounded by the model's weight.
#![tactic(auto)]

mod bound_laws;
mod environment_laws;
mod run_laws;
mod sort_laws;
mod term_laws;
mod whole_laws;

pub use bound_laws::{
    brackets_are_few, counts_are_weighed, heights_are_low, scripts_are_small, sizes_are_weighed,
    symbols_are_weighed,
};
pub use environment_laws::{environments_are_rows, rows_have_environments};
pub use run_laws::runs_are_traces;
pub use sort_laws::terms_are_well_scoped;
pub use term_laws::{data_round_trip, terms_have_values, values_round_trip};
pub use whole_laws::{names_are_spellable, scripts_are_spelled, scripts_are_valid};
