// Laws about layouts.
ghost use Rattle.moxi_layout.specs.Witnesses.{AcceptedFramesAreTraces, LayoutsAreJudgedEqually, LayoutsAreReadEqually, WitnessesNameQueries};
ghost use Rattle.moxi_layout.specs.LayoutLaws.{BadsAreQueries, FramesAreTraces, TracesAreFrames, TracesHaveFrames};

/// Proves that frames of lines that lay out a system decode to a trace that meets a query.
///
/// In these frames every constraint holds, and the query's bad line holds in the last one.
pub fn frames_are_traces()
    ensures { FramesAreTraces }
{}

/// Proves that each trace that meets a query has frames that decode to it.
///
/// In these frames every constraint holds, and the query's bad line holds in the last one.
pub fn traces_are_frames()
    ensures { TracesAreFrames }
{}

/// Proves that some trace of steps 0 to k meets a query exactly where the lines have frames 0 to k for it.
///
/// In these frames every constraint is true, and the query's bad line is true in the last one.
pub fn traces_have_frames()
    ensures { TracesHaveFrames }
{}

/// Proves that there are as many bad lines as queries.
pub fn bads_are_queries()
    ensures { BadsAreQueries }
{}

/// Proves that a text parses to the same witness, or has the same refusal, for all lines that lay out the same system.
pub fn layouts_are_read_equally()
    ensures { LayoutsAreReadEqually }
{}

/// Proves that a witness has the same verdict for all lines that lay out the same system.
pub fn layouts_are_judged_equally()
    ensures { LayoutsAreJudgedEqually }
{}

/// Proves that witnesses are for as many bad lines as there are queries.
pub fn witnesses_name_queries()
    ensures { WitnessesNameQueries }
{}

/// Proves that the frames that an accepted witness states decode to a trace that meets the query of the witness's bad line.
pub fn accepted_frames_are_traces()
    ensures { AcceptedFramesAreTraces }
{}
