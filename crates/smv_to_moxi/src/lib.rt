//! Translates the flat form of an SMV model to its MoXI script.
#![tactic(auto)]

mod flat_script;
mod lift;
mod script;

pub use flat_script::{to_moxi, to_single};
pub use lift::{count_inputs, lift_label, lift_state, lift_states};
pub use script::SingleScript;
