// What the pass over a model's instances builds.
ghost use Rattle.std.specs.Prelude.{◌≡◌, ◌++◌, ◌∷◌, [], map, OnOk};
ghost use Rattle.smv_flat.specs.FlatFormulas.{form_plain};
ghost use Rattle.smv_flat.specs.FlatView.{plain_flat};

use crate::kept::Kept;
use smv_flat::{FlatExpr, FlatFormula, Role};
use smv_intervals::Ty;
use smv_names::NumberedAssignment;
use text_core::NoMemory;

/// The flat forms of a model's formulas, the types of its items, and its assignments in the order of the text.
#[derive(Drop)]
pub struct Built {
    pub forms: Vec<FlatFormula>,
    pub types: Vec<Option<Ty>>,
    pub assigned: Vec<NumberedAssignment>,
    /// Whether each path of the model is known to have a target.
    pub all_found: bool,
}

/// What the pass over a model's instances has built, and the bodies that it still has to place.
#[derive(Drop)]
pub(crate) struct Building {
    /// The formulas of the instances so far, and the bodies of the instance at hand.
    pub(crate) forms: Vec<FlatFormula>,
    /// The assignments and sections of the instance at hand.
    pub(crate) rest: Vec<FlatFormula>,
    /// The assignments of the instances so far.
    pub(crate) assigned: Vec<NumberedAssignment>,
    /// The types of the items so far.
    pub(crate) types: Vec<Option<Ty>>,
    /// The bodies of later items, so far as they passed their checks.
    pub(crate) kept: Kept,
    /// Whether each path so far is known to have a target. In an expression with a type each path has one.
    pub(crate) all_found: bool,
}

/// Appends a formula of the instance with this number.
pub(crate) fn push(
    forms: &mut Vec<FlatFormula>,
    instance: u32,
    role: Role,
    body: FlatExpr,
) -> Result<(), NoMemory>
    ensures { OnOk result (map form_plain forms.new.items ≡ map form_plain forms.old.items ++ record { instance = instance; role = role; body = plain_flat body } ∷ []) }
{
    Ok(forms.push(FlatFormula {
        instance,
        role,
        body,
    })?)
}
