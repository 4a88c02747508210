//! Reads MoXI terms from forms: sorts, names in scope, failing tests, and the term that a form spells.
#![tactic(auto)]

mod applications;
mod atoms;
mod failures;
mod forms;
mod heads;
mod lets;
mod locals;
mod outcome;
mod read;
mod sorts;
mod typing;

pub use failures::minimum;
pub use forms::{
    is_primed, is_word, numeral_of, only_form, only_numeral, pair, place_in, symbol_atom, symbol_of,
};
pub use heads::prime;
pub use locals::{Bounds, Local, Locals};
pub use outcome::ReadTerm;
pub use read::{TermEnd, read_term, read_terms_have_sorts, term_of};
pub use sorts::{index_of, read_sorts_are_of_the_scope, refusal, sort_of, unknown_refusal};
pub use typing::{head_count_fits, head_sort};
