//! Laws of accepted models.
//!
//! Their names are identifiers and distinct, their word literals are valid words, and their integers have at most 64
//! bits.
#![tactic(auto)]

mod name_laws;
mod width_laws;
mod word_laws;

pub use name_laws::{
    names_are_distinct, names_are_words, names_differ, symbols_are_distinct, symbols_are_words,
    symbols_differ,
};
pub use width_laws::width_is_small;
pub use word_laws::words_fit;
