// The law about the lines of a flat system.
ghost use Rattle.moxi_layout.specs.LineLaws.{LinesAreWellFormed, LinesLayOut};

/// Proves that the lines of a flat system lay it out, and are well formed.
///
/// They have the system's order, and the words of their constraints, latches and bad lines are those of its formulas.
pub fn lines_lay_out()
    ensures well_formed { LinesAreWellFormed }
    ensures laid { LinesLayOut }
{}
