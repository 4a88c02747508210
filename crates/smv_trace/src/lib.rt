//! Traces of SMV models: the printer, and the reader against the flat form of a model.
#![tactic(auto)]

mod fault;
mod laws;
mod print;
mod read;
mod reader;
mod table;
mod values;

pub use laws::{not_both, one_of_both, one_refusal, one_trace, printed_reads_back, small_traces};
pub use print::print_trace;
pub use read::{TraceEnd, read_numbered, read_trace};
pub use reader::{MOST_BYTES, MOST_STATES, MOST_VALUES};
