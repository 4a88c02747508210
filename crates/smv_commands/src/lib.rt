//! The commands on SMV models: `smv2moxi`, `smv2btor`, `judge-smv`, `lift-smv` and `lower`.
#![tactic(auto)]

mod laws;
mod traces;
mod translate;

pub use laws::{runs_are_lifted, runs_are_lowered, scripts_are_correct, translations_are_correct};
pub use traces::{judge_smv_files, lift_smv_files, lower_smv_files};
pub use translate::{smv_to_btor, smv_to_moxi};
pub use witness_lift::models_have_flat_systems;
