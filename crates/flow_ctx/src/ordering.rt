//! The nodes in their order.

ghost use Rattle.std.specs.Prelude.{◌≡◌, ◌≤◌, ◌<◌, ◌⊎◌, length, slice_get, Some, Contains, IfOk, IfErr};
ghost use Rattle.flow_ctx.specs.declared.error.UnfoldError.TheVariants as refusal;
ghost use Rattle.flow_ctx.specs.Found.{nodes_of};
ghost use Rattle.flow_ctx.specs.Targets.{IsInOrder, node_of};
ghost use Rattle.flow_ctx.specs.Unfolding.{AreNodes, HasTooManyNodes, most_nodes};

use crate::error::UnfoldError;
use crate::explore::explore;
use crate::place::Place;
use flow_graph::Program;
use indexmap::IndexSet;
use std::alloc::Global;

/// The nodes that are reached, by their numbers.
pub(crate) fn ordered_places(
    alloc: Global,
    program: &Program,
) -> Result<IndexSet<Place>, UnfoldError>
    requires { IsInOrder program.now }
    ensures nodes { IfOk result (λ places. AreNodes program.now (nodes_of places.keys)) }
    ensures few { IfOk result (λ places. length places.keys ≤ most_nodes) }
    ensures refused { IfErr result (λ e. (e ≡ refusal.NoMemory)
        ⊎ ((e ≡ refusal.TooManyNodes) × HasTooManyNodes program.now)) }
{
    let mut places = explore(alloc, program)?;
    places.sort_unstable()?;
    Ok(places)
}

/// The number of a node.
pub(crate) fn number_of(places: &IndexSet<Place>, place: &Place) -> u32
    requires few { length places.now.keys ≤ most_nodes }
    requires there { Contains (nodes_of places.now.keys) (node_of place.now) }
    ensures { slice_get (nodes_of places.now.keys) result ≡ Some (node_of place.now) }
{
    match places.get_index_of(place) {
        Some(number) => number as u32,
        None => unreachable!(),
    }
}
