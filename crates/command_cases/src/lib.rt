//! Cases of whole commands: the words, files and streams of a run, in memory, and its expected result.
#![tactic(auto)]

mod family;
mod rows;
mod running;
mod setting;
mod short;
mod wanted;

pub use running::{put_run, put_sure_run};
