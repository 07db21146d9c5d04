//! Whether a certificate is valid: each rule is tried at each node and vector, over diagrams of the nodes' blocks.
#![tactic(auto)]

mod charging;
mod checked;
mod edges;
mod finishes;
mod nodes;
mod ranges;
mod refused;
mod rules;
mod subject;
mod work;

pub use checked::{Checked, Costs, Finishes, NodeCosts, VectorCosts};
pub use refused::Refused;
pub use rules::check;
