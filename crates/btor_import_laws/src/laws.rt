// Laws of the translation of lines to scripts.
ghost use Rattle.btor_import_laws.specs.Laws.{BracketsAreFew, FramesAreTraces, QueriesAreBads, TermsHaveWords, TracesAreFrames, TracesHaveFrames, TracesHaveWords};

/// Proves that the term of each constant and operator line has the line's word in every frame.
///
/// The operators are those of BTOR2 (CAV 2018, table 1) and of SMT-LIB 2.6, theory FixedSizeBitVectors.
pub fn terms_have_words()
    ensures { TermsHaveWords }
{}

/// Proves that frames with every constraint true and a bad line true in the last one give a trace that meets the
/// bad line's query.
pub fn frames_are_traces()
    ensures { FramesAreTraces }
{}

/// Proves that each trace that meets a query comes from frames with every constraint true and the bad line true in
/// the last one.
pub fn traces_are_frames()
    ensures { TracesAreFrames }
{}

/// Proves that a trace has at each step the words of one list of frames.
pub fn traces_have_words()
    ensures { TracesHaveWords }
{}

/// Proves when some trace of steps 0 to k meets a query.
///
/// It does exactly where there are frames 0 to k with every constraint true and the query's bad line true in the
/// last one.
pub fn traces_have_frames()
    ensures { TracesHaveFrames }
{}

/// Proves that there are as many queries as bad lines.
pub fn queries_are_bads()
    ensures { QueriesAreBads }
{}

/// Proves that the brackets of the printed script are nested at most seven deep.
///
/// So the printed script can always be read again.
pub fn brackets_are_few()
    ensures { BracketsAreFew }
{}
