//! BTOR2 texts: parses a text to lines, and prints lines.
#![tactic(auto)]

mod bytes;
mod place;
mod print;
mod progress;
mod read;
mod refusals;
mod resolve;
mod shape;
mod word;

pub use print::print_btor;
pub use read::{BtorEnd, read_btor};
pub use refusals::{not_both, one_refusal};
