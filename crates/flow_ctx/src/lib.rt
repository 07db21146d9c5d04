//! The unfolding of a program by chains of calls: its blocks once for each chain in which runs may come to them, the
//! edges between these, and their loops.
#![tactic(auto)]

mod construction;
mod edges;
mod error;
mod explore;
mod laws;
mod leading;
mod lookup;
mod loops;
mod members;
mod ordering;
mod place;
mod scope;
mod search;
mod target;
mod unfolded;

pub use construction::unfold;
pub use error::UnfoldError;
pub use laws::{nodes_have_blocks, unfoldings_are_one};
pub use scope::Scope;
pub use unfolded::{Call, Chain, Edge, Edges, Numbers, ULoop, ULoops, UNode, UNodes, Unfolded};
