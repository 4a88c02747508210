//! The parser of SMV expressions.
#![tactic(auto)]

mod climbing;
mod kept;
mod leaves;
mod stop;

pub use climbing::{expression, start};
pub use kept::{MOST, MeasuredExpr, leaf};
pub use leaves::{expect, integer, name, number, path};
pub use stop::Stop;
