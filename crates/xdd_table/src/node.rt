/// A diagram: the place of its root in the table that holds it.
#[derive(Clone, Copy, Debug, PartialEq, Eq, Hash)]
pub struct Dd {
    /// The position of the root's node in the table.
    pub place: usize,
}

/// A node of a table.
#[derive(Clone, Copy, Debug, PartialEq, Eq, Hash)]
pub enum Node {
    /// A diagram that has one time, in cycles, whatever hits or misses.
    Leaf {
        /// The time.
        time: u64,
    },
    /// A diagram whose time hangs on an event.
    Branch {
        /// The number of the event.
        event: u32,
        /// The diagram where the event hits.
        hit: Dd,
        /// The diagram where the event misses.
        miss: Dd,
    },
}
