//! The path problem of an unfolding as definitions, apart from any program that works it out: the graph of pairs of a
//! node and a vector, the weights of its arcs, and the certificate that its solution makes.
#![tactic(auto)]

mod edge_arc;

pub use edge_arc::EdgeArc;
