//! Items and symbols of SMV models, and their numbers.
#![tactic(auto)]

mod items;
mod numbers;
mod origins;
mod symbols;

pub use items::{FlatItem, ItemKind};
pub use numbers::{
    Bodies, ItemNumbers, Leaf, PathNumbers, VariableNumber, Variables, leaf_of, numbers_of,
};
pub use origins::{Content, Origin, Origins, dotted_path, dotted_paths, origins_in};
pub use symbols::{Symbols, symbols_in};
