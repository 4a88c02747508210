//! Flat expressions of SMV models, over numbered items and symbols, and the pass that types an expression and makes its
//! flat form.
#![tactic(auto)]

mod expressions;
mod forms;
mod naming;
mod nodes;
mod parts;
mod typing;

pub use expressions::{
    FlatBranch, FlatBranches, FlatExpr, FlatExprs, FlatLink, FlatLinks, FlatShape,
};
pub use forms::{FlatFormula, Role};
pub use naming::{Naming, Resolved};
pub use nodes::Typed;
pub use parts::FlatParts;
pub use typing::{type_of, typed};
