//! What all commands share: the words of the command line, reads of files, and answers with status, text and note.
#![tactic(auto)]

mod answer;
mod commands;
mod files;
mod notes;
mod numbers;
mod status;
mod words;

pub use answer::{Answer, Output, Stop, refusal, unread_stop};
pub use commands::{FirstFile, LastFile, answer_file, answer_files, text_answer};
pub use files::read_file;
pub use notes::{deliver, note};
pub use numbers::{cell_count, invariant_number};
pub use status::Status;
pub use words::{GivenWords, read_words};
