//! Witnesses for BTOR2 lines: a reader, a printer and a judge.
#![tactic(auto)]

mod bytes;
mod ends;
mod judge;
mod part;
mod phase;
mod print;
mod read;
mod reader;
mod room;
mod shape;
mod unique;
mod witness;

pub use bytes::without_return;
pub use judge::judge_btor;
pub use phase::Phase;
pub use print::{print_witness, table_of};
pub use read::{MOST_BYTES, read_witness};
pub use reader::{MOST_FRAMES, MOST_WORDS, input_widths, state_widths};
pub use room::{is_same, state_places, zero_of, zeros};
pub use shape::{Shape, is_passed, marked_shape, shape_of};
pub use unique::{
    not_both, one_of_both, one_refusal, one_verdict, one_witness, printed_is_read, same_refusal,
    yes_where_accepted,
};
pub use witness::{Frame, FrameList, Stated, Stateds, Witness, WitnessEnd};
