// Laws of widths. These functions do nothing.
ghost use Rattle.smv_flat.specs.FlatWidth.{WidthIsLeast, IntervalWidthIsLeast};
ghost use Rattle.smv_width.specs.SourceWidth.{SameWidth, SameModelWidth};

/// Proves that the width of an integer is the least width, at least 1, in which two's complement represents it.
pub fn width_is_least()
    ensures { WidthIsLeast }
{}

/// Proves that the width of an interval is the least in which two's complement represents each of its integers.
pub fn interval_width_is_least()
    ensures { IntervalWidthIsLeast }
{}

/// Proves that the flat form of an expression has the same width as the expression itself, if its checks hold.
///
/// The latter width comes from the types of the subexpressions and of the prefixes of chains.
pub fn same_width()
    ensures { SameWidth }
{}

/// Proves that the flat form of a parsed and accepted model has the same width as the model itself.
///
/// That width is the greatest among the types of the model's variables and the widths of its expressions.
pub fn same_model_width()
    ensures { SameModelWidth }
{}
