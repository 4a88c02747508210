//! Runs whose values are stated by the numbers of items, and only where they change.
#![tactic(auto)]

mod changes;
mod heading;
mod listing;
mod run;

pub use changes::{changes_between, give_changes};
pub use heading::Heading;
pub use listing::run_of;
pub use run::{Change, NumberedRun};
