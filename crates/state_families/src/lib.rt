//! The vectors with which runs come to the nodes of an unfolding.
#![tactic(auto)]

mod answer;
mod arrivals;
mod family_set;
mod growth;
mod incoming;
mod leaving;
mod node_set;
mod rounds;
mod subject;
mod work;

pub use answer::families;
pub use family_set::{FamilySet, Joined, Vectors};
pub use node_set::NodeSet;
