//! Laws of the loops of an unfolding, as a graph of its nodes and edges needs them. Nothing is computed here.
#![tactic(auto)]

mod edges;
mod nesting;
mod walks;

pub use edges::{back_edges_are_of_one_loop, loops_have_edges};
pub use nesting::smaller_loops_are_within;
pub use walks::closed_walks_lie_in_a_loop;
