// Laws of states and labels whose values have the declared types. These functions do nothing.
ghost use Rattle.smv_meaning.specs.TypedValues.{DeclaredLie, StatesGive, PathsLie, ExpressionsLie};

/// Proves that a value of a declared type lies in the type of a variable with that declaration.
pub fn declared_lie()
    ensures { DeclaredLie }
{}

/// Proves that each variable to which a path leads has a value of its type.
///
/// The state and the label must have values of the declared types.
pub fn states_give()
    ensures { StatesGive }
{}

/// Proves that there the value of each path lies in its type, and an integer in its interval.
pub fn paths_lie()
    ensures { PathsLie }
{}

/// Proves that each value that an expression permits lies in its type, and an integer in its interval.
///
/// The names of the expression mean what its paths mean in an instance of a model. The states, labels and following
/// states are any of the declared types.
pub fn expressions_lie()
    ensures { ExpressionsLie }
{}
