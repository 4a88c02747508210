//! Prints MoXI terms, and proves which printed terms read back.
#![tactic(auto)]

mod declarations;
mod laws;
mod named;
mod operators;
mod reading_laws;
mod sorts;
mod terms;
mod values;

pub use declarations::{put_enumeration, put_function, put_named_sort, put_symbols};
pub use laws::shown_is_read_back;
pub use reading_laws::{
    read_terms_are_read_again, read_terms_are_well_scoped, scopes_grow, shown_sorts_are_read,
    shown_terms_are_read, terms_stay_well_scoped,
};
pub use sorts::{put_sort, put_variables};
pub use terms::{push_variable_names, put_term, put_term_over};
