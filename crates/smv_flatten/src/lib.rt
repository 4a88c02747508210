//! The flat form of an SMV model, after all checks in the order of their phases.
#![tactic(auto)]

mod contents;
mod ends;
mod flattening;
mod form;
mod item_list;
mod members;
mod ordering;
mod sequences;

pub use ends::FlatEnd;
pub use flattening::flatten;
pub use form::Flat;
pub use sequences::{FlatFormulas, FlatItems};
pub use smv_flat::{
    FlatBranch, FlatBranches, FlatExpr, FlatExprs, FlatFormula, FlatLink, FlatLinks, FlatShape,
    Role,
};
pub use smv_items::{FlatItem, ItemKind};
