//! Parsers for the SMV grammar: a state machine for expressions and parser combinators for models.
//!
//! Its laws prove that both accept exactly what the grammar spells.
#![tactic(auto)]

mod expression_laws;
mod levels;
mod listing;
mod marks;
mod model_laws;

pub use expression_laws::{machine_is_exact, one_tree};
pub use levels::{Leader, first_rank, leader_of, level_at, operator_after};
pub use listing::Listing;
pub use marks::{after_word, is_first, is_sign, tokens_after};
pub use model_laws::{one_source, readers_are_exact};
