// Laws about lowered traces.
ghost use Rattle.moxi_lower.specs.Laws.{LoweredAreJudged, LoweredAreLifted, LoweredAreRead, LoweredAreWitnesses};

use btor_witness::{printed_is_read, yes_where_accepted};
use moxi_layout::witnesses_name_queries;
use moxi_lift::lifts_meet_queries;

/// Proves that the witness of a trace is lifted to the same trace.
pub fn lowered_are_lifted()
    ensures { LoweredAreLifted }
{}

/// Proves that the witness of a trace is a witness for all lines that lay out the system.
pub fn lowered_are_witnesses()
    ensures { LoweredAreWitnesses }
{
    witnesses_name_queries();
}

/// Proves that the judge accepts the witness of a trace exactly where the trace meets the query of the bad line at its
/// last step.
///
/// This holds for all lines that lay out the system.
pub fn lowered_are_judged()
    ensures { LoweredAreJudged }
{
    lowered_are_lifted();
    lowered_are_witnesses();
    lifts_meet_queries();
    yes_where_accepted();
}

/// Proves that the printed witness of a trace parses to the same witness, if it is within the limits of witnesses.
pub fn lowered_are_read()
    ensures { LoweredAreRead }
{
    lowered_are_witnesses();
    printed_is_read();
}
