use cache_flow::Flow;
use wx_base::Shape;

/// What a search looks at: a line in a stay in a part of a flow.
#[derive(Clone, Copy)]
pub(crate) struct Look<'a> {
    /// The shape of the cache.
    pub shape: Shape,
    /// The flow.
    pub flow: &'a Flow,
    /// By the number of a node, the sources of the moves to it.
    pub sources: &'a [Vec<u32>],
    /// The numbers of the part's nodes.
    pub members: &'a [u32],
    /// For each node of the flow whether it is one of them.
    pub inside: &'a [bool],
    /// For each node of the flow whether the line may be known at its begin.
    pub known: &'a [bool],
    /// The line.
    pub line: u32,
}
