// The items and the formulas of a flat form, as lists that only this crate can create.
ghost use Rattle.std.specs.Prelude.{◌≡◌, ◌<◌, length, slice_index_or};

use smv_flat::FlatFormula;
use smv_items::FlatItem;
use std::marker::Model;

/// The items of a flat form, in order.
///
/// Contracts see it as their list.
#[derive(Drop)]
pub struct FlatItems {
    items: Vec<FlatItem>,
}

impl Model for FlatItems {
    ghost use Rattle.std.specs.Prelude.{List};
    ghost use Rattle.smv_items.specs.declared.items.FlatItem.{FlatItem};

    ghost Value = { List FlatItem };

    ghost view = { λ l. l.items.items };
}

impl FlatItems {
    pub(crate) fn of(items: Vec<FlatItem>) -> FlatItems
        ensures { result ≡ items.items }
    {
        FlatItems { items }
    }

    /// Returns the number of items.
    pub fn len(&self) -> usize
        ensures { result ≡ length self.now }
    {
        self.items.len()
    }

    /// Returns the item with this number.
    pub fn at(&self, k: usize) -> &FlatItem
        requires { k < length self.now }
        ensures { result.now ≡ slice_index_or self.now k result.now }
    {
        &self.items[k]
    }

    /// Returns all items as a slice.
    pub fn as_slice(&self) -> &[FlatItem]
        ensures { result.now ≡ self.now }
    {
        self.items.as_slice()
    }
}

/// The formulas of a flat form, in order.
///
/// Contracts see it as their list.
#[derive(Drop)]
pub struct FlatFormulas {
    formulas: Vec<FlatFormula>,
}

impl Model for FlatFormulas {
    ghost use Rattle.std.specs.Prelude.{List};
    ghost use Rattle.std.specs.Coded.{codes};
    ghost use Rattle.smv_flat.specs.contracts.expressions.FlatExpr as expr;
    ghost use Rattle.smv_flat.specs.contracts.expressions.FlatShape as shape;
    ghost use Rattle.smv_flat.specs.declared.forms.FlatFormula.{FlatFormula};

    ghost Value = { List FlatFormula };

    ghost coded = { Prim.hlevel (codes, expr.the_row.coded, shape.the_row.coded) };

    ghost view = { λ l. l.formulas.items };
}

impl FlatFormulas {
    pub(crate) fn of(formulas: Vec<FlatFormula>) -> FlatFormulas
        ensures { result ≡ formulas.items }
    {
        FlatFormulas { formulas }
    }

    /// Returns the number of formulas.
    pub fn len(&self) -> usize
        ensures { result ≡ length self.now }
    {
        self.formulas.len()
    }

    /// Returns the formula at this position.
    pub fn at(&self, k: usize) -> &FlatFormula
        requires { k < length self.now }
        ensures { result.now ≡ slice_index_or self.now k result.now }
    {
        &self.formulas[k]
    }

    /// Returns all formulas as a slice.
    pub fn as_slice(&self) -> &[FlatFormula]
        ensures { result.now ≡ self.now }
    {
        self.formulas.as_slice()
    }
}
