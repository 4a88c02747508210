// Laws of typed expressions. These functions do nothing.
ghost use Rattle.smv_meaning.specs.Typed.{ValuesLie};
ghost use Rattle.smv_meaning.specs.Owed.{TypedIsSafe};

/// Proves that each value that a typed expression permits lies in its type, and an integer in its interval.
///
/// This holds in all states of the declared types.
pub fn values_lie()
    ensures { ValuesLie }
{}

/// Proves that each integer computed by the evaluation of a typed expression fits 64 bits, in all states of the
/// declared types.
pub fn typed_is_safe()
    ensures { TypedIsSafe }
{}
