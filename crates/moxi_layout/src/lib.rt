//! Layouts: the BTOR2 lines that lay out a flat MoXI system.
//!
//! The laws say that the frames of such lines are the system's traces, that a system's lines lay it out, and how many
//! there are.
#![tactic(auto)]

mod constant_laws;
mod count_laws;
mod layout_laws;
mod line_laws;

pub use constant_laws::codes_are_few;
pub use count_laws::{
    flat_sizes_are_script_sizes, lines_are_counted, lines_stay_few, no_duplicate_lines,
};
pub use layout_laws::{
    accepted_frames_are_traces, bads_are_queries, frames_are_traces, layouts_are_judged_equally,
    layouts_are_read_equally, traces_are_frames, traces_have_frames, witnesses_name_queries,
};
pub use line_laws::lines_lay_out;
