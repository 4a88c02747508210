//! Lowers traces of flat MoXI systems to witnesses of the BTOR2 lines that lay out the systems.
#![tactic(auto)]

mod laws;
mod lower;

pub use laws::{lowered_are_judged, lowered_are_lifted, lowered_are_read, lowered_are_witnesses};
pub use lower::lower_trace;
