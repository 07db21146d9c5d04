ghost use Rattle.std.specs.Prelude.{◌≡◌, ◌<◌, [], ◌∷◌, ◌++◌, length, replicate, slice_set, IfOk, OnOk};
ghost use Rattle.graph_loops.specs.Graph.{lists_of, edges, AreVertices, IsGraph};
ghost use Rattle.graph_loops.specs.Walk.{AreSources, IsSourceAdded};

use crate::lists::list_at;
use std::alloc::Global;
use wx_base::NoMemory;

/// For each vertex those that lead to it, each as often as it does.
///
/// Linear in the vertices and edges.
pub(crate) fn sources_of(alloc: Global, lists: &[Vec<usize>]) -> Result<Vec<Vec<usize>>, NoMemory>
    requires { IsGraph (lists_of lists.now) }
    ensures { IfOk result (λ sources. AreSources (lists_of lists.now) (lists_of sources.items)) }
{
    let mut sources = empty_lists(alloc, lists.len())?;
    for u in 0..lists.len() {
        add_source(sources.as_mut_slice(), u, list_at(lists, u))?;
    }
    Ok(sources)
}

/// So many lists without elements.
fn empty_lists(alloc: Global, count: usize) -> Result<Vec<Vec<usize>>, NoMemory>
    ensures { IfOk result (λ lists. lists_of lists.items ≡ replicate count []) }
{
    let mut lists = Vec::with_capacity(alloc, count)?;
    for _ in 0..count {
        lists.push(Vec::new(alloc))?;
    }
    Ok(lists)
}

/// Puts a vertex among the sources of each of its targets.
fn add_source(sources: &mut [Vec<usize>], u: usize, targets: &[usize]) -> Result<(), NoMemory>
    requires { AreVertices (length sources.old) targets.now }
    ensures { OnOk result (IsSourceAdded (lists_of sources.old) (lists_of sources.new) u targets.now) }
{
    for v in targets {
        push_at(sources, *v, u)?;
    }
    Ok(())
}

/// Puts a number behind those of the list at a place.
fn push_at(lists: &mut [Vec<usize>], v: usize, u: usize) -> Result<(), NoMemory>
    requires { v < length lists.old }
    ensures { OnOk result (lists_of lists.new
        ≡ slice_set (lists_of lists.old) v (edges (lists_of lists.old) v ++ u ∷ [])) }
{
    lists[v].push(u)?;
    Ok(())
}
