//! BTOR2 lines: well-formed lists of lines, a builder that shares equal lines, the frames of lines, and the texts
//! that parse to lines. Also the parts and numbers that the parsers of lines and witnesses share.
#![tactic(auto)]

mod args;
mod builder;
mod bytes;
mod laws;
mod line_key;
mod line_places;
mod lines;
mod nodes;
mod numbered_lines;

pub use args::{Arg, Args, no_args, one_arg, plain_arg, three_args, two_args};
pub use builder::Builder;
pub use bytes::{first_part, line_length, numeral};
pub use laws::{
    fewer_are_met, grows_by_shared, no_duplicates, no_reading, one_fault, one_reading,
    printed_spells, pushed_fits, pushed_is_met, pushed_width, says_what_was_pushed, spelled_fits,
};
pub use lines::{GREATEST_ID, Line, LineOp, has_word, sort_width};
pub use nodes::Nodes;
pub use numbered_lines::NumberedLines;
