// Laws about lifted witnesses.
ghost use Rattle.moxi_lift.specs.Laws.{LiftsAreDecoded, LiftsMeetQueries};

use btor_witness::yes_where_accepted;
use moxi_layout::{bads_are_queries, frames_are_traces};

/// Proves that a witness is lifted to the trace that its stated frames decode to.
pub fn lifts_are_decoded()
    ensures { LiftsAreDecoded }
{}

/// Proves that a witness that the judge accepts is lifted to a trace that meets the query of its bad line at
/// the last step.
pub fn lifts_meet_queries()
    ensures { LiftsMeetQueries }
{
    lifts_are_decoded();
    yes_where_accepted();
    bads_are_queries();
    frames_are_traces();
}
