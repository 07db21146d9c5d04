//! The edges into each node.

ghost use Rattle.std.specs.Prelude.{◌≡◌, ◌<◌, [], ◌∷◌, ◌++◌, length, replicate, slice_index_or, slice_set, Contains, IfOk, OnOk};
ghost use Rattle.flow_ctx.specs.declared.unfolded.Edge.{Edge as EdgeOf};
ghost use Rattle.flow_ctx.specs.Unfolding.{IsUnfolding};
ghost use Rattle.state_families.specs.Incoming.{AreIncoming, lists_of};

use flow_ctx::{Edge, Unfolded};
use std::alloc::Global;
use wx_text::NoMemory;

/// Lists without elements.
fn empty_lists(alloc: Global, count: usize) -> Result<Vec<Vec<usize>>, NoMemory>
    ensures { IfOk result (λ lists. lists_of lists.items ≡ replicate count []) }
{
    let mut lists = Vec::with_capacity(alloc, count)?;
    for _ in 0..count {
        lists.push(Vec::new(alloc))?;
    }
    Ok(lists)
}

/// Puts a number behind those of the list at a place.
fn push_at(lists: &mut [Vec<usize>], place: usize, number: usize) -> Result<(), NoMemory>
    requires { place < length lists.old }
    ensures { OnOk result (lists_of lists.new
        ≡ slice_set (lists_of lists.old) place (slice_index_or (lists_of lists.old) place [] ++ number ∷ [])) }
{
    lists[place].push(number)?;
    Ok(())
}

/// Puts the number of each edge into the list of the node that it leads to.
fn note_edges(lists: &mut [Vec<usize>], edges: &[Edge]) -> Result<(), NoMemory>
    requires empty { lists_of lists.old ≡ replicate (length lists.old) [] }
    requires within { (edge : EdgeOf) → Contains edges.now edge → edge.to < length lists.old }
    ensures { OnOk result (AreIncoming edges.now (length lists.old) (length edges.now) (lists_of lists.new)) }
{
    for number in 0..edges.len() {
        push_at(lists, edges[number].to as usize, number)?;
    }
    Ok(())
}

/// For each node the numbers of the edges that lead to it. It takes time in the nodes and edges.
pub(crate) fn edges_into(alloc: Global, u: &Unfolded) -> Result<Vec<Vec<usize>>, NoMemory>
    requires { IsUnfolding u.now.program u.now }
    ensures { IfOk result (λ lists.
        AreIncoming u.now.edges (length u.now.nodes) (length u.now.edges) (lists_of lists.items)) }
{
    let mut lists = empty_lists(alloc, u.nodes.len())?;
    note_edges(lists.as_mut_slice(), u.edges.as_slice())?;
    Ok(lists)
}
