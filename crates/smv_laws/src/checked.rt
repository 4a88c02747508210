// Laws of models whose checks hold. These functions do nothing.
ghost use Rattle.smv_meaning.specs.Checked.{AcceptedIsChecked, NamesHaveTypes, ExpressionsHaveTypes, ExpressionsAreSafe};

/// Proves that in an accepted model the checks of paths, cycles and types hold.
pub fn accepted_is_checked()
    ensures { AcceptedIsChecked }
{}

/// Proves that, where they hold, the target of a path has a type unless it is an instance.
pub fn names_have_types()
    ensures { NamesHaveTypes }
{}

/// Proves that, where they hold, each expression of an instance, and each part of one, has a type in some position.
///
/// The exception is an expression that is the name of an instance.
pub fn expressions_have_types()
    ensures { ExpressionsHaveTypes }
{}

/// Proves that, where they hold, each expression of an instance, and each part of one, is evaluated safely.
///
/// This holds in all states of the declared types.
pub fn expressions_are_safe()
    ensures { ExpressionsAreSafe }
{}
