//! Lifts witnesses of BTOR2 lines to traces of the flat MoXI system that the lines lay out.
//!
//! A chain holds a script's flat system with its lines.
#![tactic(auto)]

mod chain;
mod chain_lift;
mod frame_lift;
mod laws;
mod layout;
mod step;

pub use chain::{MoxiChain, MoxiEnd};
pub use chain_lift::{LiftEnd, accept_lines, lift_lines, lift_moxi};
pub use frame_lift::lift_frames;
pub use laws::{lifts_are_decoded, lifts_meet_queries};
pub use step::lifted_step;
