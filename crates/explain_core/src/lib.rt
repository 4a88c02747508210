//! Explains the notes of `moxi_cli`: the place in a file, the cause, and a fix.
#![tactic(auto)]

mod advice;
mod command;
mod ending;
mod lines;
mod messages;
mod near;
mod notes;
mod session;
mod table;
mod tokens;

pub use command::explain;
pub use ending::Ending;
pub use lines::{Window, line_at, lines_of, window_at};
pub use messages::put_excerpt;
pub use notes::{Note, read_note};
pub use session::{Source, explain_line, explain_notes, put_refusal};
