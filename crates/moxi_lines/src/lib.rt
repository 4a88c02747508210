//! The BTOR2 lines of MoXI terms and of flat systems.
//!
//! The crate defines the codes of values as words, and the lines of each operator. The laws say that a term's line has the
//! word of its value, and when the constraints hold.
#![tactic(auto)]

mod system_laws;
mod term_laws;

pub use system_laws::{systems_are_constrained, systems_are_framed};
pub use term_laws::{codes_round_trip, terms_have_their_words};
