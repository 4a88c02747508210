// Laws about the lines of a flat system.
ghost use Rattle.moxi_lines.specs.System.{SystemsAreConstrained, SystemsAreFramed};

/// Proves when all constraints of a system hold in a frame.
///
/// That is exactly where the codes of enumerations are in range and the parts' formulas are true. The formulas are over the
/// values that the frame's words encode. Queries add no constraints.
pub fn systems_are_constrained()
    ensures { SystemsAreConstrained }
{}

/// Proves that the state `first` starts as one and is zero in all later frames.
///
/// Each variable has its input, and its state of the previous step.
pub fn systems_are_framed()
    ensures { SystemsAreFramed }
{}
