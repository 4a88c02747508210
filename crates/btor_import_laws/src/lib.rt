//! Laws: the frames of BTOR2 lines are the traces of their translation to MoXI.
#![tactic(auto)]

mod laws;

pub use laws::{
    brackets_are_few, frames_are_traces, queries_are_bads, terms_have_words, traces_are_frames,
    traces_have_frames, traces_have_words,
};
