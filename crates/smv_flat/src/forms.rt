// The formulas of a model.

use crate::expressions::FlatExpr;
use smv_text::When;

/// The role of a formula: the body of an item, an assignment to an item, or the kind of its section.
#[derive(Clone, Copy, PartialEq, Eq)]
pub enum Role {
    Body(u32),
    Assign(When, u32),
    Init,
    Trans,
    Invar,
    Invariant,
}

/// A formula: the number of its instance, its role, and its expression.
///
/// The body of an actual belongs to the instance that has the parameter. An assignment belongs to the instance whose
/// module contains it.
#[derive(Drop)]
pub struct FlatFormula {
    pub instance: u32,
    pub role: Role,
    pub body: FlatExpr,
}
