//! The commands on MoXI scripts: `moxi2btor`, `judge-moxi` and `lift-moxi`.
#![tactic(auto)]

mod judge;
mod responses;
mod scripts;
mod translate;

pub use judge::judge_moxi_files;
pub use responses::{lift_moxi_files, traces_are_lifted};
pub use scripts::{SCRIPT_LIMIT, script_of};
pub use translate::{lines_are_correct, moxi_to_btor, script_lines_are_laid_out};
