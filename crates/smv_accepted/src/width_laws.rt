// A law of widths. This function does nothing.
ghost use Rattle.smv_accepted.specs.WidthLaws.{WidthIsSmall};

/// Proves that the integers of the flat form of a parsed and accepted model have at most 64 bits.
pub fn width_is_small()
    ensures { WidthIsSmall }
{}
