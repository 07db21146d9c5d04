//! Where functions begin, and calls that lead back to themselves.

ghost use Rattle.std.specs.Prelude.{◌≡◌, ◌<◌, ◌⊎◌, ℕ, false, length};
ghost use Rattle.std.specs.Prelude.{slice_index_or, Contains, Decides, IsTrue, IfOk, Some};
ghost use Rattle.graph_loops.specs.Graph.{lists_of, edges, IsGraph, AreVertices};
ghost use Rattle.flow_graph.specs.Listing.{IsRecursiveNumber, IsLeast, AreEntries, AreMarkedCallees, AreLeads};

use graph_loops::{Graph, reach};
use std::alloc::Global;
use wx_base::NoMemory;

/// Marks at the numbers of the functions' entries: the start, and all that are called. Linear in the calls.
pub(crate) fn entries(
    alloc: Global,
    calls: &[Vec<usize>],
    start: usize,
) -> Result<Vec<bool>, NoMemory>
    requires graph { IsGraph (lists_of calls.now) }
    requires start { start < length calls.now }
    ensures { IfOk result (λ marks. AreEntries (lists_of calls.now) start marks.items) }
{
    let mut marks = vec![in alloc; false; calls.len()]?;
    marks[start] = true;
    for callees in calls {
        mark_all(&mut marks, callees.as_slice());
    }
    Ok(marks)
}

/// Marks each of some numbers.
fn mark_all(marks: &mut [bool], numbers: &[usize])
    requires { AreVertices (length marks.old) numbers.now }
    ensures long { length marks.new ≡ length marks.old }
    ensures marked { (v : ℕ) → Decides (slice_index_or marks.new v false)
        (Contains numbers.now v ⊎ IsTrue (slice_index_or marks.old v false)) }
{
    for number in numbers {
        marks[*number] = true;
    }
}

/// What each instruction leads to, by its ways and its calls.
fn leads(alloc: Global, ways: &Graph, calls: &[Vec<usize>]) -> Result<Vec<Vec<usize>>, NoMemory>
    requires calls { IsGraph (lists_of calls.now) }
    requires same { length ways.now ≡ length calls.now }
    ensures leads { IfOk result (λ rows. AreLeads ways.now (lists_of calls.now) (lists_of rows.items)) }
    ensures graph { IfOk result (λ rows. IsGraph (lists_of rows.items)) }
{
    let mut rows = Vec::with_capacity(alloc, ways.len())?;
    for (at, callees) in calls.iter().enumerate() {
        let mut row = Vec::from_slice(alloc, ways.targets(at))?;
        row.extend_from_slice(callees.as_slice())?;
        rows.push(row)?;
    }
    Ok(rows)
}

/// The least number of a call that leads back to itself, by ways and calls. With f functions it takes f times as long
/// as going over all instructions.
pub(crate) fn recursive_call(
    alloc: Global,
    ways: &Graph,
    calls: &[Vec<usize>],
    entries: &[bool],
) -> Result<Option<usize>, NoMemory>
    requires calls { IsGraph (lists_of calls.now) }
    requires same { length ways.now ≡ length calls.now }
    requires entries { AreMarkedCallees (lists_of calls.now) entries.now }
    ensures { IfOk result (IsLeast (λ site. IsRecursiveNumber ways.now (lists_of calls.now) site)) }
{
    let graph = Graph::new(alloc, leads(alloc, ways, calls)?)?;
    let mut least = None;
    for (entry, is_entry) in entries.iter().enumerate() {
        if *is_entry {
            let reached = reach(alloc, &graph, &[entry], None)?;
            least = lesser(least, first_call(calls, entry, reached.as_slice()));
        }
    }
    Ok(least)
}

/// The least of the marked instructions that call a function.
fn first_call(calls: &[Vec<usize>], entry: usize, marks: &[bool]) -> Option<usize>
    requires { length marks.now ≡ length calls.now }
    ensures { IsLeast (λ site. Contains (edges (lists_of calls.now) site) entry
        × IsTrue (slice_index_or marks.now site false)) result }
{
    for (site, callees) in calls.iter().enumerate() {
        if marks[site] && callees.contains(&entry) {
            return Some(site);
        }
    }
    None
}

/// The lesser of two numbers that there may be.
pub(crate) fn lesser(a: Option<usize>, b: Option<usize>) -> Option<usize>
    ensures { IsLeast (λ v. (a ≡ Some v) ⊎ (b ≡ Some v)) result }
{
    match (a, b) {
        (Some(a), Some(b)) => Some(a.min(b)),
        (Some(a), None) => Some(a),
        (None, b) => b,
    }
}
