//! The ordered checks of the nodes of SMV expressions, and their types.
#![tactic(auto)]

mod arguments;
pub mod calls;
pub mod chains;
mod ends;
pub mod lists;
mod names;
pub mod nodes;
mod positions;

pub use ends::{CheckEnd, answered};
pub use names::{Named, Scope};
pub use positions::{Permissions, Position};
