//! What holds of the graph of an unfolding. Nothing is computed here.
#![tactic(auto)]

mod finishes;
mod graphs;

pub use finishes::finishes_are_natural;
pub use graphs::graph_is_sound;
