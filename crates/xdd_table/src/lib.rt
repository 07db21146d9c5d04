//! The shared table of decision diagrams: each node is stored once, so two diagrams are equal exactly if their places
//! are.
#![tactic(auto)]

mod node;
mod order;
mod table;

pub use node::{Dd, Node};
pub use order::Order;
pub use table::Table;
