//! The parser of SMV models.
#![tactic(auto)]

mod module_sections;
mod module_types;
mod source;

pub use source::{ParseEnd, parse};
