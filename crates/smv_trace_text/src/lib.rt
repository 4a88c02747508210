//! Traces of SMV models as texts: the printed layout of a stated run, and the parts of a single line.
#![tactic(auto)]

mod lines;
mod print;

pub use lines::{begins_with_dash, heading_numbers, is_passed, line_length, trim, value_parts};
pub use print::print_trace;
