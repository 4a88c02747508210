// Laws for passes along an order of definitions and actuals. These functions do nothing.
ghost use Rattle.smv_meaning.specs.Orders.{OrderIsComplete, ReferencesComeBefore, TypesHangOnPaths, RefusedHaveNoType};

/// Proves that an order of definitions and actuals contains each of them.
pub fn order_is_complete()
    ensures { OrderIsComplete }
{}

/// Proves that in such an order a definition or an actual comes after those to which it refers.
pub fn references_come_before()
    ensures { ReferencesComeBefore }
{}

/// Proves that the checks of an expression and its type depend only on the paths in it.
pub fn types_hang_on_paths()
    ensures { TypesHangOnPaths }
{}

/// Proves that an expression with a failing check has no type.
pub fn refused_have_no_type()
    ensures { RefusedHaveNoType }
{}
