// A law of word literals. This function does nothing.
ghost use Rattle.smv_accepted.specs.WordLaws.{WordsFit};

/// Proves that each word literal of a parsed model's instances has a valid width, and a value below two to the power of
/// the width.
pub fn words_fit()
    ensures { WordsFit }
{}
