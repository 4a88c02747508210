// Laws of the runs and refusals of trace texts.
ghost use Rattle.std.specs.Prelude.{◌≡◌, ◌⊎◌, ℕ, List};
ghost use Rattle.text_core.specs.declared.place.Refusal.{Refusal};
ghost use Rattle.smv_meaning.specs.declared.value.Run.{Run};
ghost use Rattle.smv_numbered.specs.Stated.{Declarations};
ghost use Rattle.smv_trace.specs.Texts.{ReadsTrace, RefusesTrace};
ghost use Rattle.smv_trace.specs.ReadBack.{PrintedReadsBack};
ghost use Rattle.smv_trace.specs.Examples.{PrintsAndReads, light, light_run, light_text, count, count_run, count_text, three, three_run, three_text};

/// Proves that a text states at most one run.
pub fn one_trace()
    ensures { (d : Declarations) (text : List ℕ) (run other : Run) → ReadsTrace d text run → ReadsTrace d text other → run ≡ other }
{}

/// Proves that a text has at most one refusal, of one kind at one place.
pub fn one_refusal()
    ensures { (d : Declarations) (text : List ℕ) (why other : Refusal) → RefusesTrace d text why → RefusesTrace d text other → why ≡ other }
{}

/// Proves that no text both states a run and is refused.
pub fn not_both()
    ensures { (d : Declarations) (text : List ℕ) (run : Run) (why : Refusal) → ReadsTrace d text run → RefusesTrace d text why → ⊥ }
{}

/// Proves that each text states a run or is refused.
pub fn one_of_both()
    ensures { (d : Declarations) (text : List ℕ) → ((run : Run) × ReadsTrace d text run) ⊎ ((why : Refusal) × RefusesTrace d text why) }
{}

/// Proves that the printed form of a run of an accepted model states the run, within the limits of the reader.
pub fn printed_reads_back()
    ensures { PrintedReadsBack }
{}

/// Proves that three small traces are printed and read back.
///
/// One has a state and an input, one no inputs, and one an integer, a symbol and a word.
pub fn small_traces()
    ensures light { PrintsAndReads light 0 light_run light_text }
    ensures count { PrintsAndReads count 12 count_run count_text }
    ensures three { PrintsAndReads three 3 three_run three_text }
{}
