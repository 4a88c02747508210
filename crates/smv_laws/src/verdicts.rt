// A law of verdicts. This function does nothing.
ghost use Rattle.smv_meaning.specs.Verdicts.{YesIsRun};

/// Proves that the verdict is Yes exactly where the stated states and labels are a run of the model whose last state
/// breaks the invariant.
pub fn yes_is_run()
    ensures { YesIsRun }
{}
