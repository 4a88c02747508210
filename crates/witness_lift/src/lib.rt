//! Lifts a witness of the BTOR2 lines of an SMV model to a run of the model.
//!
//! A law states that the frames of an accepted model's lines are its runs.
#![tactic(auto)]

mod chain;
mod lift;
mod lift_laws;
mod line_laws;
mod system_lines;

pub use chain::SmvChain;
pub use lift::lift_smv;
pub use lift_laws::traces_break_invariants;
pub use line_laws::{
    model_lines_are_counted, model_lines_are_laid_out, model_lines_are_shared,
    model_lines_are_spelled, models_have_flat_systems, models_have_frames,
};
pub use moxi_lift::{LiftEnd, MoxiChain, MoxiEnd, lift_moxi};
