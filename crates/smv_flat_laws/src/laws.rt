// Laws of flat models and rows of values. These functions do nothing.
ghost use Rattle.smv_flat_laws.specs.FlatLaws.{RowIsThere, RowIsOne, SameTruth};
ghost use Rattle.smv_flat_laws.specs.FlatBounds.{NumbersLie};
ghost use Rattle.smv_flat_laws.specs.FlatOrders.{FlatIsOrdered};

/// Proves that, in an acyclic model, each state and label has a row of values that satisfies the bodies of the flat
/// form.
pub fn row_is_there()
    ensures { RowIsThere }
{}

/// Proves that this row is the only one.
pub fn row_is_one()
    ensures { RowIsOne }
{}

/// Proves that the formulas of the flat form hold in rows exactly where the model's formulas hold in the states.
///
/// The model is parsed and accepted, and the rows are those of two states. This covers the first state, each state, and
/// the transition between the two. Frozen variables stay equal, and the same invariants are false.
pub fn same_truth()
    ensures { SameTruth }
{}

/// Proves that each number in the formulas of an accepted model's flat form is that of an existing item or symbol.
pub fn numbers_lie()
    ensures { NumbersLie }
{}

/// Proves that an order of an accepted model's definitions and actuals gives one of the items of its flat form.
///
/// In both orders each body comes after what it reads.
pub fn flat_is_ordered()
    ensures { FlatIsOrdered }
{}
