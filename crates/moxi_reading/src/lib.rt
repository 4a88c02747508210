//! Reads the script that MoXI forms spell, or returns its first failing test.
#![tactic(auto)]

mod cycles;
mod links;
mod outcome;
mod read;

pub use links::test_links;
pub use outcome::ScriptEnd;
pub use read::read_script;
