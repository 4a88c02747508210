//! Definitions of the meaning of SMV models: values, instances, names, expressions, types, checks and runs.
#![tactic(auto)]

mod value;

pub use value::{Given, Run, State, States, Value};
