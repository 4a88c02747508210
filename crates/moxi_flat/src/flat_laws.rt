// Laws about flat systems.
ghost use Rattle.moxi_flat.specs.FlatSizes.{FlatSystemsHaveSizes};
ghost use Rattle.moxi_flat.specs.FlatLaws.{FlatSystemsAreSorted, FlatTracesAreJudged, SingleSystemsAreFlat, TracesHaveFlatTraces};

/// Proves that a trace meets a query of a valid script exactly where a trace of the flat system meets it.
///
/// The flat trace has the same values of the check's variables.
pub fn traces_have_flat_traces()
    ensures { TracesHaveFlatTraces }
{}

/// Proves that the judge accepts a trace with hidden values exactly where the flat trace with the same values meets the
/// query.
///
/// The values must be of their variables' sorts.
pub fn flat_traces_are_judged()
    ensures { FlatTracesAreJudged }
{}

/// Proves that the variables of a flat system have sorts of the scope, and that its formulas are truth values over them.
pub fn flat_systems_are_sorted()
    ensures { FlatSystemsAreSorted }
{}

/// Proves that a flat system has the check's variables and the checked system's own formulas, if that system has no
/// subsystems.
pub fn single_systems_are_flat()
    ensures { SingleSystemsAreFlat }
{}

/// Proves that the size and the height of a flat system are those of the system that the script's check instantiates.
pub fn flat_systems_have_sizes()
    ensures { FlatSystemsHaveSizes }
{}
