//! Test cases written as text: the arguments of a call and its expected answer. A case is a line `case TITLE`,
//! followed by lines with a key and a value. Lines that begin with a mark are the bytes of the line above them. The
//! crate also reads the files that cases name, reports differences, and counts the cases that passed.
#![tactic(auto)]

mod answer;
mod bytes;
mod differences;
mod fault;
mod files;
mod piece;
mod reading;
mod tally;

pub use answer::Answer;
pub use bytes::{lines_of, put_lines};
pub use differences::{put_difference, put_number_difference, put_unreadable};
pub use fault::{Fault, Unread};
pub use files::Files;
pub use piece::{Piece, number, piece_bytes, utf8};
pub use reading::{Case, Entry, read_cases};
pub use tally::Tally;
