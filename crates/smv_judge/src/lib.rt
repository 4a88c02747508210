//! The judge of stated runs of SMV models.
#![tactic(auto)]

mod fits;
mod judge;
mod labels;
mod stated;
mod steps;
mod taken;

pub use judge::{
    judge_flat, judge_listed, judge_numbered, judge_numbered_rows, judge_rows, judge_smv,
};
pub use labels::first_label;
pub use taken::TakesRows;
