use crate::chains::Chains;
use cache_flow::Flow;
use cache_kept::{Stretch, Ways};
use cache_sets::NodeVerdicts;
use flow_ctx::Unfolded;
use wx_base::Shape;

/// An access of a node to a line.
#[derive(Clone, Copy)]
pub(crate) struct Access {
    /// The number of the node.
    pub node: u32,
    /// How many accesses of the node come before.
    pub place: usize,
    /// The line.
    pub line: u32,
}

/// What is known of the lines of one set of the cache.
#[derive(Drop)]
pub(crate) struct SetTable {
    /// The accesses to these lines alone.
    pub flow: Flow,
    /// What is known of each line where a node accesses it.
    pub verdicts: Vec<NodeVerdicts>,
}

/// What is known of the lines of an unfolding, and where it is looked for.
#[derive(Drop)]
pub(crate) struct Tables<'a> {
    /// The unfolding.
    pub u: &'a Unfolded,
    /// The shape of the cache.
    pub shape: Shape,
    /// What the nodes do to the cache.
    pub flow: Flow,
    /// Set by set what is known.
    pub sets: Vec<SetTable>,
    /// How nodes follow one another.
    pub ways: Ways,
    /// The run as a part of the flow.
    pub run: Stretch<'a>,
    /// Each loop as a part of the flow.
    pub loops: Vec<Stretch<'a>>,
    /// The loops that have each node.
    pub chains: Chains,
}
