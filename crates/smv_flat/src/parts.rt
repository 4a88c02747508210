// The parts of a flat form.

use crate::forms::FlatFormula;
use name_maps::NameSet;
use smv_items::FlatItem;

/// The parts of a flat form: its items, its symbols, and its formulas over the numbers of both.
#[derive(Clone, Copy)]
pub struct FlatParts<'f> {
    /// The items.
    pub items: &'f [FlatItem],
    /// The symbols.
    pub symbols: &'f NameSet,
    /// The formulas.
    pub formulas: &'f [FlatFormula],
}
