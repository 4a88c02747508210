//! Simplifies lists of BTOR2 lines. Rules replace operator lines, equal lines are shared, unused lines are dropped,
//! and ids and sort lines get a normal form.
#![tactic(auto)]

mod contents;
mod fates;
mod laws;
mod marks;
mod order;
mod simplified;
mod write;

pub use laws::lists_get_smaller;
pub use simplified::simplify;
