//! Rules that replace an operator line of BTOR2 by a constant or by one of its arguments.
#![tactic(auto)]

mod laws;
mod operand;
mod rules;

pub use laws::{rules_fit, rules_hold};
pub use operand::{Operand, Operands, Outcome, other_sign};
pub use rules::outcome;
