// A law of flat models. This function does nothing.
ghost use Rattle.smv_flat_evaluation.specs.FlatSafety.{FormsAreSafe};

/// Proves that each intermediate integer in the evaluation of an accepted model's formulas fits 64 bits.
///
/// This holds in the rows of states and labels whose values have the declared types.
pub fn forms_are_safe()
    ensures { FormsAreSafe }
{}
