use flow_ctx::Scope;
use wx_text::List;

/// What is known of the outcome of an event, whatever the cache held at the start of the run.
#[derive(Clone, Copy, Debug, PartialEq, Eq)]
pub enum Class {
    /// A fetch that hits each time, or an event that is fast each time.
    AlwaysHit,
    /// A fetch that misses each time.
    AlwaysMiss,
    /// A fetch of a line whose fetches with this class and scope miss at most once in each stay in the scope.
    FirstMiss {
        /// The outermost scope of which that is known.
        scope: Scope,
    },
    /// Nothing is known.
    Open,
}

/// The classes of a node's events, in their order: contracts see the list.
pub type NodeClasses = List<Class>;

/// Classes node by node: contracts see the list.
pub type ClassTable = List<NodeClasses>;

/// The classes of all events of an unfolding.
#[derive(Debug, Drop)]
pub struct Classes {
    /// By the number of the node, and by the number of the event in the node's block.
    pub slots: ClassTable,
}
