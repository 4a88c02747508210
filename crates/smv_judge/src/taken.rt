// Takers of the rows that a judge fills.
ghost use Rattle.std.specs.Prelude.{◌++◌, ◌∷◌, [], List, OnOk};
ghost use Rattle.smv_flat.specs.FlatTruth.{Row};
ghost use Rattle.smv_flat_evaluation.specs.RowValues.{row_values};

use smv_operators::Seen;
use std::alloc::Global;
use text_core::NoMemory;

/// Takes the rows of a run's states, in order, while the run is judged.
pub trait TakesRows {
    /// The second value is the first one after these rows were taken.
    ghost took: { Self → List Row → Self → Type 0 };

    /// Takes a row: the values of the items in a state, under the label of the transition that leaves it.
    fn take_row(&mut self, alloc: Global, values: &[Seen]) -> Result<(), NoMemory>
        requires { (start : Self) × (rows : List Row) × took start rows self.old }
        ensures { OnOk result ((start : Self) (rows : List Row) → took start rows self.old → took start (rows ++ row_values values.now ∷ []) self.new) };
}

/// Takes rows and keeps none.
#[derive(Drop)]
pub(crate) struct NoRows;

impl TakesRows for NoRows {
    ghost took = { λ start rows now. Unit {0} };

    fn take_row(&mut self, _alloc: Global, _values: &[Seen]) -> Result<(), NoMemory> {
        Ok(())
    }
}
