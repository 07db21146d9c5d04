use crate::place::Place;

/// Where a node leads.
#[derive(Debug, Drop)]
pub(crate) struct Target {
    /// The node that is come to.
    pub place: Place,
    /// Whether the node's last instruction jumps, calls or returns there.
    pub taken: bool,
}
