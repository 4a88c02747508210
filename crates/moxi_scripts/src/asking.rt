// The tests of a query at each step.
ghost use Rattle.std.specs.Prelude.{◌≡◌, ◌++◌, ◌+◌, ℕ};
ghost use Rattle.moxi_terms.specs.Names.{or_else};
ghost use Rattle.moxi_scripts.specs.declared.script.Query.{Query};
ghost use Rattle.moxi_scripts.specs.Asking.{NothingFails, query_tests, system_tests};
ghost use Rattle.moxi_scripts.specs.Behaviour.{Behaves, Trace};
ghost use Rattle.moxi_scripts.specs.Meeting.{Hiddens, MeetsQuery, first_failing, is_reached_before, step_tests};
ghost use Rattle.moxi_scripts.specs.Script.{PlainScript, calls_in};

/// Proves that the tests of a step are those of the system followed by those of the query.
///
/// So the first failing clause is the system's, or else the query's.
pub fn steps_are_tested_by_system_and_query()
    ensures tests { (s : PlainScript) (q : Query) (last : ℕ) (trace : Trace) (hs : Hiddens) (j : ℕ) → step_tests s q last trace hs j ≡ system_tests s trace hs j ++ query_tests s q last (is_reached_before s trace j) j (trace j) }
    ensures first { (s : PlainScript) (q : Query) (last : ℕ) (trace : Trace) (hs : Hiddens) (j : ℕ)
        → first_failing (step_tests s q last trace hs j) ≡ or_else (first_failing (system_tests s trace hs j)) (first_failing (query_tests s q last (is_reached_before s trace j) j (trace j))) }
{}

/// Proves that a trace of the checked system meets a query exactly where none of the query's tests fails at any step.
pub fn queries_are_met_where_nothing_fails()
    ensures meets { (s : PlainScript) (q : Query) (k : ℕ) (trace : Trace)
        → Behaves s.scope.enumerations (calls_in s.scope) s.systems (k + 1) s.check.system trace → NothingFails s q k trace → MeetsQuery s q k trace }
    ensures asks { (s : PlainScript) (q : Query) (k : ℕ) (trace : Trace) → MeetsQuery s q k trace → NothingFails s q k trace }
{}
