//! The table of a model's instances, which resolves names and paths.
#![tactic(auto)]

mod aliases;
mod children;
mod instances;
mod keys;
mod known_names;
mod leads;
mod modules;
mod names;
mod parts;
mod scanning;
mod symbols;
mod table;

pub use instances::{Instance, instances as instance_list, path_below};
pub use modules::ModuleTable;
pub use names::{Known, Target};
pub use table::Table;
