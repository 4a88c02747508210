// The law of runs and traces. This function does nothing.
ghost use Rattle.smv_text.specs.Tree.{PlainSource};
ghost use Rattle.smv_script_laws.specs.RunLaws.{HasQueries, RunsHaveTraces, TracesAreRuns};

/// Proves that a parsed and accepted model can break invariant j after k steps exactly where its script can meet query
/// j at step k.
///
/// The model breaks the invariant with a run of k transitions whose last state breaks it. The script meets the query
/// with a trace that meets it at step k.
pub fn runs_are_traces()
    // Where a trace meets the query at a step, the states and labels that it encodes are such a run.
    ensures decoded { TracesAreRuns }
    // For each such run, a trace meets the query at the run's last step.
    ensures traced { RunsHaveTraces }
    // The script has a query for each invariant, in their order.
    ensures queries { (source : PlainSource) → HasQueries source }
{}
