// Runs by the numbers of items.

use smv_meaning::Value;
use text_core::List;

/// A value that is stated for the item with this number.
#[derive(Drop)]
pub struct Change {
    pub item: usize,
    pub value: Value,
}

/// A run that holds a value only where one is stated.
///
/// `changes` has the stated values, in order. `ends` has for each state the number of changes that are stated up to it.
/// Each item keeps its value until it is stated again. A state has the values of the state and frozen variables, and the
/// label that leads to it has the values of the inputs after the same changes.
#[derive(Drop)]
pub struct NumberedRun {
    pub changes: List<Change>,
    pub ends: List<usize>,
}
