ghost use Rattle.std.specs.Prelude.{◌≡◌, ◌<◌, length, slice_get, Some};

use crate::miss::Miss;
use cache_class::{Class, Classes};
use flow_block::Block;
use flow_ctx::{Edge, Unfolded};
use pipe_block::Site;
use pipe_time::Vector;
use wx_base::Machine;
use wx_text::List;

/// What charges are worked out from.
#[derive(Clone, Copy)]
pub(crate) struct Subject<'a> {
    pub unfolded: &'a Unfolded,
    pub machine: &'a Machine,
    pub classes: &'a Classes,
    /// The vectors of each node.
    pub vectors: &'a List<List<Vector>>,
}

/// An edge, as the node that it leaves sees it.
#[derive(Clone, Copy)]
pub(crate) struct Departure<'a> {
    /// The node.
    pub site: Site<'a, 'a>,
    /// The node's block.
    pub block: &'a Block,
    /// Whether its last instruction jumps along the edge.
    pub taken: bool,
    /// The classes of its events.
    pub classes: &'a [Class],
    /// The events that belong to groups.
    pub misses: &'a [Miss],
}

/// The edge with a number.
pub(crate) fn edge_at(u: &Unfolded, number: usize) -> &Edge
    requires { number < length u.now.edges }
    ensures { slice_get u.now.edges number ≡ Some result.now }
{
    &u.edges.as_slice()[number]
}

/// The classes of a node's events.
pub(crate) fn classes_at(classes: &Classes, node: u32) -> &[Class]
    requires { node < length classes.now.slots }
    ensures { slice_get classes.now.slots node ≡ Some result.now }
{
    classes.slots.as_slice()[node as usize].as_slice()
}

/// The vectors of a node.
pub(crate) fn vectors_at(vectors: &List<List<Vector>>, node: u32) -> &[Vector]
    requires { node < length vectors.now }
    ensures { slice_get vectors.now node ≡ Some result.now }
{
    vectors.as_slice()[node as usize].as_slice()
}
