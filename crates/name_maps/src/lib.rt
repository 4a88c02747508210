//! Sets of names in declaration order, and maps from names to values, both without scans.
#![tactic(auto)]

mod buckets;
mod instance_map;
mod instance_rows;
mod key;
mod name_map;
mod rows;
mod set;
mod sorted_named;
mod successors;
mod table;

pub use instance_map::{InstanceMap, nothing_in, put_in, value_in};
pub use instance_rows::{InstanceRows, add_first_in, add_row_in, no_rows_in, row_value_in};
pub use name_map::{NameMap, no_names, put, value_under};
pub use rows::{NameRows, add_row, no_rows, row_value};
pub use set::NameSet;
pub use successors::Successors;
pub use table::NameTable;
