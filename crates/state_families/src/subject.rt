//! What vectors are worked out for.

ghost use Rattle.std.specs.Prelude.{◌≡◌, ◌<◌, length, slice_get, Some};

use cache_class::{Class, Classes};
use flow_ctx::{Edge, Unfolded};
use wx_base::Machine;

/// An unfolding on a machine.
#[derive(Clone, Copy)]
pub(crate) struct Subject<'a> {
    pub unfolded: &'a Unfolded,
    /// The classes of the unfolding's events on the machine.
    pub classes: &'a Classes,
    pub machine: &'a Machine,
}

/// The classes of a node's events.
pub(crate) fn classes_at(classes: &Classes, node: u32) -> &[Class]
    requires { node < length classes.now.slots }
    ensures { slice_get classes.now.slots node ≡ Some result.now }
{
    classes.slots.as_slice()[node as usize].as_slice()
}

/// The edge with a number.
pub(crate) fn edge_at(u: &Unfolded, number: usize) -> Edge
    requires { number < length u.now.edges }
    ensures { slice_get u.now.edges number ≡ Some result }
{
    u.edges.as_slice()[number]
}
