//! The top call `run`: it reads words as a command, runs the command, and writes its answer.
#![tactic(auto)]

mod command;
mod routes;
mod words;

pub use command::run;
pub use command_core::{Answer, Output, Status};
pub use routes::routes_meet;
pub use words::Command;
