//! Plain graphs with loops, and what tells that one meets the conditions on its arcs and loops.
#![tactic(auto)]

mod bounds;
mod conditions;
mod graph;
mod order;
mod sources;

pub use bounds::{fit, has_natural_finishes, is_bounded};
pub use conditions::{is_graph, number_at, owners_of};
pub use graph::{Arc, Graph, LARGEST, LoopArcs, LoopPrices};
pub use order::ranks_in_depth;
pub use sources::{ArcsFrom, arcs_from};
