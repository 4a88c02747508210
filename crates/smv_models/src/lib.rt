//! SMV models, parsed from bytes and checked.
#![tactic(auto)]

mod models;

pub use models::{SMV_LIMIT, flat_in};
