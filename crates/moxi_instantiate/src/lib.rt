//! Builds the flat system of a script.
//!
//! Its size, height and nesting are counted first, without building anything.
#![tactic(auto)]

mod checks;
mod copies;
mod counts;
mod functions;
mod instances;
mod measures;
mod parts;
mod refusals;
mod system;
mod systems;
mod terms;
mod variables;

pub use checks::{check_height, check_size};
pub use copies::renumber;
pub use counts::MOST;
pub use functions::{body_heights, body_sizes};
pub use measures::{Measures, is_too_large, measures_of};
pub use parts::{Part, Parts, part_of, places_inside};
pub use refusals::{accepted_variables, flat_variables};
pub use system::{FlatSystem, InstEnd, flat_of_single, instantiate};
pub use systems::{Measure, amounts, order_of};
pub use terms::{term_height, term_size};
pub use variables::add_locals;
