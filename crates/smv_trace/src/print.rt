// The printer of traces, with the read-back of its text.
ghost use Rattle.std.specs.Prelude.{◌≡◌, map, IfOk};
ghost use Rattle.smv_items.specs.FlatItemView.{item_plain};
ghost use Rattle.smv_trace_text.specs.Texts.{trace_text};
ghost use Rattle.smv_trace.specs.Answer.{declarations_of};
ghost use Rattle.smv_trace.specs.ReadBack.{ReadsBack};

use smv_flatten::Flat;
use smv_meaning::Run;
use std::alloc::Global;
use text_core::{NoMemory, Text};

/// Returns the printed form of a run that breaks invariant j.
///
/// The first line says that the invariant is false. Then each state follows with its values in order, after its label
/// where the model has inputs. States are counted from 1, and a label has the number of the state that it leads to.
/// (The layout is this translator's own; it is modelled on NuSMV's counterexamples.)
pub fn print_trace(alloc: Global, flat: &Flat, j: u32, run: &Run) -> Result<Text, NoMemory>
    // The text is the printed form.
    ensures text { IfOk result (λ text. text ≡ trace_text (map item_plain flat.now.items) j run.now.states run.now.labels) }
    // It reads back to the same run, if the run can be stated and is within the limits of the reader.
    ensures again { IfOk result (ReadsBack (declarations_of flat.now) run.now) }
{
    flat.is_of_model();
    smv_trace_text::print_trace(alloc, flat, j, run)
}
