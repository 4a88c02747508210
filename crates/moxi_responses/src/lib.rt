//! Responses of a script's check: a printer, and a reader against the script's flat system.
#![tactic(auto)]

mod declared;
mod laws;
mod responses;

pub use laws::responses_are_read_back;
pub use responses::{print_response, read_response};
