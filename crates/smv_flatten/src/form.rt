// The flat form of a model.
ghost use Rattle.std.specs.Prelude.{◌≡◌, ◌≤◌};
ghost use Rattle.smv_flatten.specs.FlatModel.{IsOfModel, IsOrdered};

use crate::sequences::{FlatFormulas, FlatItems};
use name_maps::NameSet;
use smv_flat::FlatParts;
use std::marker::Model;
use text_core::List;

/// The flat form of an accepted model.
///
/// It has the model's variables, definitions and actuals as numbered items, its symbols, and its formulas over these
/// numbers. Instances come in preorder.
#[derive(Drop)]
pub struct Flat {
    pub(crate) items: FlatItems,
    pub(crate) symbols: NameSet,
    pub(crate) formulas: FlatFormulas,
    pub(crate) order: List<usize>,
    pub(crate) width: u32,
    pub(crate) weight: u32,
    pub(crate) invariants: u32,
}

impl Model for Flat {
    ghost use Rattle.std.specs.Coded.{codes};
    ghost use Rattle.smv_flat.specs.contracts.expressions.FlatExpr as expr;
    ghost use Rattle.smv_flat.specs.contracts.expressions.FlatShape as shape;
    ghost use Rattle.smv_flatten.specs.FlatModel.{FlatModel, IsOfModel};

    ghost Value = { FlatModel };

    ghost coded = { Prim.hlevel (codes, expr.the_row.coded, shape.the_row.coded) };

    ghost view = { λ f. record { items = f.items; symbols = f.symbols; formulas = f.formulas; width = f.width; weight = f.weight; invariants = f.invariants } };

    ghost use Rattle.std.specs.Prelude.{◌≤◌};
    ghost use Rattle.smv_flatten.specs.FlatModel.{IsOrdered};

    ghost invariant = { λ f. (1 ≤ f.width) × (f.width ≤ 64) × ∥ IsOfModel (record { items = f.items; symbols = f.symbols; formulas = f.formulas; width = f.width; weight = f.weight; invariants = f.invariants }) ∥₁ × ∥ IsOrdered (record { items = f.items; symbols = f.symbols; formulas = f.formulas; width = f.width; weight = f.weight; invariants = f.invariants }) f.order ∥₁ };
}

impl Flat {
    /// Returns the variables, definitions and actuals.
    ///
    /// For each instance, the actuals that are not paths come first, then its own variables and definitions in the
    /// order of the text.
    pub fn items(&self) -> &FlatItems
        ensures { result.now ≡ self.now.items }
    {
        &self.items
    }

    /// Returns the symbols of enumerations and CONSTANTS, each once, in the order of their first occurrence.
    pub fn symbols(&self) -> &NameSet
        ensures { result.now ≡ self.now.symbols }
    {
        &self.symbols
    }

    /// Returns the formulas.
    ///
    /// For each instance, the bodies of its items come first, then its assignments and sections in the order of the
    /// text.
    pub fn formulas(&self) -> &FlatFormulas
        ensures { result.now ≡ self.now.formulas }
    {
        &self.formulas
    }

    /// Returns the items, the symbols and the formulas.
    pub fn parts(&self) -> FlatParts<'_>
        ensures items { result.items.now ≡ self.now.items }
        ensures symbols { result.symbols.now ≡ self.now.symbols }
        ensures formulas { result.formulas.now ≡ self.now.formulas }
    {
        FlatParts {
            items: self.items.as_slice(),
            symbols: &self.symbols,
            formulas: self.formulas.as_slice(),
        }
    }

    /// Returns an order of the items in which each body comes after the items that it reads.
    ///
    /// It has each item with a body once.
    pub fn order(&self) -> &[usize]
        ensures { IsOrdered self.now result.now }
    {
        self.order.as_slice()
    }

    /// Returns the width of an integer in bits, from 1 to 64.
    ///
    /// It is 1 where no integer occurs.
    pub fn width(&self) -> u32
        ensures value { result ≡ self.now.width }
        ensures some { 1 ≤ result }
        ensures bound { result ≤ 64 }
    {
        self.width
    }

    /// Returns the weight: the tokens of the modules' bodies, summed over the instances.
    pub fn weight(&self) -> u32
        ensures { result ≡ self.now.weight }
    {
        self.weight
    }

    /// Returns the number of invariants, over all instances.
    pub fn invariants(&self) -> u32
        ensures { result ≡ self.now.invariants }
    {
        self.invariants
    }

    /// Proves that a text parses to the model of which this is the flat form, and that the model's checks hold.
    pub fn is_of_model(&self)
        ensures { ∥ IsOfModel self.now ∥₁ }
    {
        // This use of a field makes the invariant available.
        let _ = &self.items;
    }
}
