// Laws of environments and rows. These functions do nothing.
ghost use Rattle.smv_script_laws.specs.EnvironmentLaws.{EnvironmentsAreRows, RowsHaveEnvironments};

/// Proves that each environment of a script that satisfies its items is that of a row.
///
/// The model is parsed and accepted. The environment's values have the sorts of the script's variables, and each item's
/// membership and equation holds. The row is that of the state and the label that the environment encodes, whose values
/// have the declared types.
pub fn environments_are_rows()
    ensures { EnvironmentsAreRows }
{}

/// Proves that the row of each state and label of the declared types has an environment with values of the variables'
/// sorts.
///
/// The model is parsed and accepted.
pub fn rows_have_environments()
    ensures { RowsHaveEnvironments }
{}
