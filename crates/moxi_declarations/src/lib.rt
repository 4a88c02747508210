//! Reads the commands of a MoXI script in order: sorts, functions, systems and checks.
#![tactic(auto)]

mod checks;
mod commands;
mod functions;
mod once;
mod queries;
mod sorts;
mod systems;

pub use checks::ReadCheck;
pub use commands::{Draft, nothing_read, read_commands};
pub use systems::ReadSystem;
