//! The names of SMV models: checks of modules, declarations, paths, cycles, assignments and sizes, phase by phase.
#![tactic(auto)]

mod assignments;
mod cycles;
mod declarations;
mod declared;
mod declaring;
mod ends;
mod invariants;
mod module_names;
mod paths;
mod sizes;
mod visits;

pub use assignments::{NumberedAssignment, assignments_checked, is_assignable};
pub use cycles::cycles_checked;
pub use declarations::declarations_checked;
pub use ends::NamesEnd;
pub use invariants::invariants_checked;
pub use module_names::modules_checked;
pub use paths::{is_something, paths_checked};
pub use sizes::{SizedModel, sizes_checked};
