// The law of lifted runs. This function only cites other laws.
ghost use Rattle.witness_lift.specs.Breaking.{TracesBreakInvariants};

use moxi_flat::traces_have_flat_traces;
use smv_script_laws::{runs_are_traces, scripts_are_valid};

/// Proves that a trace that meets the query of an invariant at its last step encodes a run whose last state breaks the
/// invariant.
///
/// The trace is one of the flat system of the model's script.
pub fn traces_break_invariants()
    ensures { TracesBreakInvariants }
{
    scripts_are_valid();
    traces_have_flat_traces();
    runs_are_traces();
}
