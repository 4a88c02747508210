// Laws of lowered runs. These functions only cite other laws.
ghost use Rattle.trace_lower.specs.Laws.{LoweredAreAccepted, LoweredRoundTrip};

use moxi_flat::traces_have_flat_traces;
use moxi_lower::{lowered_are_judged, lowered_are_lifted, lowered_are_witnesses};
use smv_laws::yes_is_run;
use smv_script_laws::{scripts_are_valid, values_round_trip};

/// Proves that the judge accepts the witness of a run that breaks an invariant.
///
/// This holds for all lines that lay the model's system out; the witness is one for these lines.
pub fn lowered_are_accepted()
    ensures { LoweredAreAccepted }
{
    yes_is_run();
    scripts_are_valid();
    traces_have_flat_traces();
    lowered_are_witnesses();
    lowered_are_judged();
}

/// Proves that this witness is lifted to the same run.
pub fn lowered_round_trip()
    ensures { LoweredRoundTrip }
{
    yes_is_run();
    lowered_are_lifted();
    values_round_trip();
}
