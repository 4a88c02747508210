//! Laws of the meaning of SMV.
//!
//! They state that typed expressions have values of their types, and relate orders of definitions to cycles. Others
//! concern models that pass their checks, and verdicts on runs.
#![tactic(auto)]

mod checked;
mod orders;
mod settled;
mod typed;
mod values;
mod verdicts;

pub use checked::{
    accepted_is_checked, expressions_are_safe, expressions_have_types, names_have_types,
};
pub use orders::{
    order_is_complete, references_come_before, refused_have_no_type, types_hang_on_paths,
};
pub use settled::{
    acyclic_is_ranked, cycles_are_checked, names_settle, ordered_is_acyclic, ranked_is_acyclic,
    types_settle, values_are_one, values_settle,
};
pub use typed::{typed_is_safe, values_lie};
pub use values::{declared_lie, expressions_lie, paths_lie, states_give};
pub use verdicts::yes_is_run;
