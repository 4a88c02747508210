//! A judge of witnesses whose text comes in pieces. It reads and judges in one pass, and allocates all its memory
//! before the first byte.
#![tactic(auto)]

mod digits;
mod first;
mod judge;
mod laws;
mod line;
mod part;
mod reader;
mod scan;

pub use judge::{Judge, JudgeEnd};
pub use laws::one_answer;
