//! Responses of MoXI: a printer, and a reader against the declarations of a check.
#![tactic(auto)]

mod declarations;
mod laws;
mod point;
mod print;
mod read;
mod reader;
mod table;
mod tokens;
mod values;

pub use declarations::Declarations;
pub use laws::{not_both, one_of_both, one_refusal, one_response, printed_is_read};
pub use point::Answered;
pub use print::{Steps, print_response};
pub use read::{MOST_BYTES, ResponseEnd, read_response};
pub use table::{MOST_STEPS, MOST_VALUES};
