ghost use Rattle.std.specs.Prelude.{◌≡◌, ◌<◌, length, slice_index, Decides, IfOk, MatchOption};
ghost use Rattle.graph_loops.specs.Graph.{lists_of, edges, IsGraph};
ghost use Rattle.graph_loops.specs.Cycles.{AreAbove, IsAcyclic, IsCyclic, IsLeastCyclic, Rise};

use crate::lists::list_at;
use crate::order::in_order;
use crate::walk::walk;
use std::alloc::Global;
use wx_base::NoMemory;

/// The least vertex on a cycle, if there is one.
///
/// Linear in the vertices and edges where there is no cycle; else a walk for each vertex.
pub(crate) fn least_cyclic(alloc: Global, lists: &[Vec<usize>]) -> Result<Option<usize>, NoMemory>
    requires { IsGraph (lists_of lists.now) }
    ensures { IfOk result (λ least.
        MatchOption least (IsAcyclic (lists_of lists.now)) (λ v. IsLeastCyclic (lists_of lists.now) v)) }
{
    // However the numbers were found: where they rise along each edge there is no cycle.
    let numbers = in_order(alloc, lists)?;
    if rise(lists, numbers.as_slice()) {
        return Ok(None);
    }
    first_cyclic(alloc, lists)
}

/// The first vertex on a cycle.
fn first_cyclic(alloc: Global, lists: &[Vec<usize>]) -> Result<Option<usize>, NoMemory>
    requires { IsGraph (lists_of lists.now) }
    ensures { IfOk result (λ least.
        MatchOption least (IsAcyclic (lists_of lists.now)) (λ v. IsLeastCyclic (lists_of lists.now) v)) }
{
    for vertex in 0..lists.len() {
        if is_cyclic(alloc, lists, vertex)? {
            return Ok(Some(vertex));
        }
    }
    Ok(None)
}

/// Whether a vertex is on a cycle.
fn is_cyclic(alloc: Global, lists: &[Vec<usize>], v: usize) -> Result<bool, NoMemory>
    requires graph { IsGraph (lists_of lists.now) }
    requires vertex { v < length lists.now }
    ensures { IfOk result (λ cyclic. Decides cyclic (IsCyclic (lists_of lists.now) v)) }
{
    let marks = walk(alloc, lists, list_at(lists, v), None)?;
    Ok(marks[v])
}

/// Whether each edge leads to a vertex of a higher number.
fn rise(lists: &[Vec<usize>], numbers: &[usize]) -> bool
    ensures { Decides result (Rise (lists_of lists.now) numbers.now) }
{
    for v in 0..lists.len() {
        if !are_above(list_at(lists, v), numbers, number_of(numbers, v)) {
            return false;
        }
    }
    true
}

/// Whether each of some vertices has a number above a bound.
fn are_above(targets: &[usize], numbers: &[usize], bound: usize) -> bool
    ensures { Decides result (AreAbove targets.now numbers.now bound) }
{
    for u in targets {
        if number_of(numbers, *u) <= bound {
            return false;
        }
    }
    true
}

/// The number of a vertex.
fn number_of(numbers: &[usize], v: usize) -> usize
    ensures { result ≡ slice_index numbers.now v }
{
    numbers.get(v).copied().unwrap_or(0)
}
