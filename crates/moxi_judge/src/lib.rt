//! Judges traces of MoXI scripts.
#![tactic(auto)]

mod judge;
mod parts;
mod queries;
mod terms;

pub use judge::judge_moxi;
