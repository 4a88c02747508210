//! Cases for results that no command shows: printed forms, types and values of single expressions, and the output
//! of `explain`. A case states a call, its pieces and the expected answer; a table states one call for each row.
#![tactic(auto)]

mod calling;
mod explaining;
mod models;
mod scripts;
mod terms;
mod types;
mod values;
mod witnesses;

pub use calling::put_calls;
