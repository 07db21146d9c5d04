//! What is reached in a graph, and its loops.
#![tactic(auto)]

mod cycles;
mod graph;
mod laws;
mod lists;
mod loops;
mod members;
mod order;
mod sources;
mod structure;
mod walk;
mod ways;

pub use graph::{Graph, reach};
pub use laws::{
    closed_walks_lie_in_loops, heads_are_entries, heads_cut_cycles, loops_are_nested,
    single_edges_keep_membership,
};
pub use loops::{Loop, Loops, Vertices};
pub use structure::{Structure, structure_of};
