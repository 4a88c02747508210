//! Rows of values of a flat form's items, and the truth of its formulas in rows.
#![tactic(auto)]

mod bodies;
mod carried;
mod listed;
mod order;
mod places;
mod row;
mod truth;
mod variables;

pub use carried::Carried;
pub use order::{RowOrder, row_order};
pub use places::ItemPlace;
pub use row::Row;
pub use truth::{frozen_stay, init_holds, invar_holds, is_broken, trans_holds};
