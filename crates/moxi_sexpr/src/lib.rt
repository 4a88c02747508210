//! S-expressions in SMT-LIB's lexical form with primed symbols: a reader and a printer.
#![tactic(auto)]

mod bytes;
mod ends;
mod form;
mod nodes;
mod print;
mod read;
mod scan;

pub use bytes::{ByteSet, is_blank, run_length, starts_simple};
pub use form::{Atom, Form, FormShape, Forms};
pub use nodes::{MANY_NODES, count_all_nodes, count_nodes};
pub use print::{print_forms, put_symbol, written_forms_read_back};
pub use read::{FormEnd, end_of, read_forms, readings_are_one};
pub use scan::{quote_length, split_prime};
