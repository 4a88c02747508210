// Laws about the number of a flat system's lines.
ghost use Rattle.moxi_layout.specs.Counts.{FlatSizesAreScriptSizes, LinesAreCounted, LinesStayFew, NoDuplicateLines};

/// Proves that the size of a flat system is that of its script.
pub fn flat_sizes_are_script_sizes()
    ensures { FlatSizesAreScriptSizes }
{}

/// Proves that a flat system has at most 12 lines for each unit of its size, and 6 more, whatever its queries name.
pub fn lines_stay_few()
    ensures { LinesStayFew }
{}

/// Proves a tighter bound if each query names one reachable formula and nothing else.
///
/// There are at most 2 lines for each unit of the system's size, 6 for each variable and each query, and 150 more. Each
/// line must have an id, which `lines_stay_few` shows for all but vast systems.
pub fn lines_are_counted()
    ensures { LinesAreCounted }
{}

/// Proves that no two sort, constant or operator lines of a flat system are equal.
pub fn no_duplicate_lines()
    ensures { NoDuplicateLines }
{}
