//! The types of SMV models: the ordered checks of types and positions over a whole model, the properties of its names,
//! and the flat form of its expressions, each made as it is checked.
#![tactic(auto)]

mod bodies;
mod building;
mod built;
mod context;
mod domains;
mod kept;
mod names;
mod parts;
mod types;
mod variables;

pub use built::Built;
pub use types::types_checked;
