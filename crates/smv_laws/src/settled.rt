// Laws of acyclic models. These functions do nothing.
ghost use Rattle.smv_meaning.specs.Settled.{CyclesAreChecked, RankedIsAcyclic, OrderedIsAcyclic, AcyclicIsRanked, NamesSettle, ValuesSettle, ValuesAreOne, TypesSettle};

/// Proves that the cycle checks of definitions and actuals hold exactly where none of them reaches itself.
pub fn cycles_are_checked()
    ensures { CyclesAreChecked }
{}

/// Proves that a model is acyclic if its definitions and actuals have a ranking.
///
/// In a ranking, each has a greater number than those to which it refers.
pub fn ranked_is_acyclic()
    ensures { RankedIsAcyclic }
{}

/// Proves that a model is acyclic if its definitions and actuals can be listed so that each comes after those to which
/// it refers.
pub fn ordered_is_acyclic()
    ensures { OrderedIsAcyclic }
{}

/// Proves that the definitions and actuals of an acyclic model have a ranking.
///
/// The rank of each is the length of the longest chain of references from it. It is less than the step limit of names,
/// values and types.
pub fn acyclic_is_ranked()
    ensures { AcyclicIsRanked }
{}

/// Proves that in an acyclic model every path is resolved, and a name leads to what its declaration says.
pub fn names_settle()
    ensures { NamesSettle }
{}

/// Proves that in an acyclic model a name's value is that of its target, under the same values of names.
pub fn values_settle()
    ensures { ValuesSettle }
{}

/// Proves that the values of names are the only ones that satisfy these equations.
pub fn values_are_one()
    ensures { ValuesAreOne }
{}

/// Proves that in an acyclic model a name has the type of its target, under the same types of names.
pub fn types_settle()
    ensures { TypesSettle }
{}
