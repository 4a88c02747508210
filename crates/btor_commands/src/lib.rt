//! The commands on BTOR2 texts: `judge-btor`, `btor2moxi` and `simplify`. Also the reading of a second file as a
//! witness.
#![tactic(auto)]

mod import;
mod judge;
mod pieces;
mod second;
mod simplify;

pub use import::{btor_to_moxi, imports_are_correct};
pub use judge::judge_files;
pub use second::{lines_are_spelled, witness_in};
pub use simplify::{simplify_btor, smaller_texts_are_correct};
