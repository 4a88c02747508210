//! Builds the BTOR2 lines of a flat MoXI system: the head, the variables, the formulas of each part, and the queries.
#![tactic(auto)]

mod chains;
mod conditions;
mod lines;
mod operators;
mod parts;
mod queries;
mod system;
mod terms;
mod variables;
mod words;

pub use chains::{put_chain, put_folded};
pub use operators::choice_width;
pub use system::to_btor;
pub use terms::{Places, put_term};
pub use words::{put_binary, put_constant};
