//! Directed graphs: an order in which each node follows its successors, or the first node on a cycle.
#![tactic(auto)]

mod components;
mod mark;
mod order;
mod ranks;
mod returns;
mod search;

pub use order::{Graph, Order, sort};
pub use ranks::Ranks;
pub use returns::leads_back;
