//! The edges of an unfolding.

ghost use Rattle.std.specs.Prelude.{◌≡◌, ◌≤◌, ◌<◌, length, slice_get, Some, Contains, IfOk, OnOk, All};
ghost use Rattle.flow_ctx.specs.Edges.{AddsEdges, AreEdgesFrom};
ghost use Rattle.flow_ctx.specs.Found.{nodes_of};
ghost use Rattle.flow_ctx.specs.Targets.{IsInOrder, node_of};
ghost use Rattle.flow_ctx.specs.Unfolding.{AreEdges, AreNodes, most_nodes};

use crate::leading::targets_of;
use crate::ordering::number_of;
use crate::place::Place;
use crate::target::Target;
use crate::unfolded::Edge;
use flow_graph::Program;
use indexmap::IndexSet;
use std::alloc::Global;
use wx_base::NoMemory;

/// Adds an edge to each of some targets.
fn add_edges(
    from: u32,
    targets: &[Target],
    places: &IndexSet<Place>,
    edges: &mut IndexSet<Edge>,
) -> Result<(), NoMemory>
    requires few { length places.now.keys ≤ most_nodes }
    requires there { All (λ t. Contains (nodes_of places.now.keys) (node_of t.place)) targets.now }
    ensures { OnOk result (AddsEdges (nodes_of places.now.keys) from targets.now edges.old.keys edges.new.keys) }
{
    for target in targets {
        edges.insert(Edge {
            from,
            to: number_of(places, &target.place),
            taken: target.taken,
        })?;
    }
    Ok(())
}

/// The edges between nodes, in the order in which they are found.
fn found_edges(
    alloc: Global,
    program: &Program,
    places: &IndexSet<Place>,
) -> Result<IndexSet<Edge>, NoMemory>
    requires order { IsInOrder program.now }
    requires nodes { AreNodes program.now (nodes_of places.now.keys) }
    requires few { length places.now.keys ≤ most_nodes }
    ensures { IfOk result (λ edges. AreEdgesFrom program.now (nodes_of places.now.keys) (length places.now.keys)
        edges.keys) }
{
    let mut edges = IndexSet::new(alloc);
    let list = places.as_slice();
    for from in 0..list.len() {
        let targets = targets_of(alloc, program, &list[from])?;
        add_edges(from as u32, targets.as_slice(), places, &mut edges)?;
    }
    Ok(edges)
}

/// The edges between nodes, in their order. With n of them it takes time in n log n.
pub(crate) fn edges_of(
    alloc: Global,
    program: &Program,
    places: &IndexSet<Place>,
) -> Result<Vec<Edge>, NoMemory>
    requires order { IsInOrder program.now }
    requires nodes { AreNodes program.now (nodes_of places.now.keys) }
    requires few { length places.now.keys ≤ most_nodes }
    ensures { IfOk result (λ edges. AreEdges program.now (nodes_of places.now.keys) edges.items) }
{
    let mut edges = found_edges(alloc, program, places)?;
    edges.sort_unstable()?;
    Ok(Vec::from_slice(alloc, edges.as_slice())?)
}
