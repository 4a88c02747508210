//! The definitions and actuals of a model, the paths in their bodies, and an order with each after those to which it
//! refers.
#![tactic(auto)]

mod bodies;
mod paths;
mod references;

pub use bodies::{Body, bodies_in, place};
pub use paths::{paths_in, put_all_paths, put_paths};
pub use references::{Ordering, body_order};
