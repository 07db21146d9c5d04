use wx_text::List;
use xdd_table::Dd;

/// The finish from each vector of a node.
pub type Finishes = List<Dd>;

/// The cost along each edge of a node from a vector, in the order of the edges.
pub type VectorCosts = List<Dd>;

/// Such costs for each vector of a node.
pub type NodeCosts = List<VectorCosts>;

/// Such costs for each node.
pub type Costs = List<NodeCosts>;

/// What is known of a certificate that was accepted.
#[derive(Debug, Drop)]
pub struct Checked {
    /// The bound, in cycles.
    pub bound: u64,
    /// The finish of a node's block from each vector that the certificate has for the node, node by node.
    pub finishes: List<Finishes>,
    /// The cost along each edge of a node from each such vector, node by node.
    pub costs: Costs,
}
