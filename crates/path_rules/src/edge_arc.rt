use path_graph::Arc;

/// An arc of the graph of an unfolding, with the edge of the unfolding that it goes along.
#[derive(Clone, Copy, Debug)]
pub struct EdgeArc {
    /// The number of the edge.
    pub edge: u32,
    /// The arc, between the numbers of two pairs of a node and a vector.
    pub arc: Arc,
}
