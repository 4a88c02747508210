//! Frames of BTOR2 lines: rows of words, computed line by line, and the values of constraint and bad lines in them.
#![tactic(auto)]

mod fill;
mod frames;
mod handed;
mod next;
mod sources;
mod tables;
mod words;

pub use frames::Frames;
pub use handed::words_fit;
pub use words::Words;
