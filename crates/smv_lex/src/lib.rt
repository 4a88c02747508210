//! The lexer of SMV models: from a text to its tokens, or to its first refusal.
#![tactic(auto)]

mod adding;
mod brackets;
mod lexing;
mod numbers;
mod scan;
mod signs;
mod tables;
mod words;

pub use brackets::{MOST_BRACKETS, opened_by};
pub use lexing::{LexEnd, lex, one_lexing, printed_is_lexed, spellings_are_read};
pub use numbers::literal_of;
