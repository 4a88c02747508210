//! The printer of SMV models.
#![tactic(auto)]

mod printing;
mod spelling;

pub use printing::{print, printed_is_read, printed_spells, ranks_are_levels};
