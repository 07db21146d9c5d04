//! Tests of what the path problem asks of a graph.
ghost use Rattle.std.specs.Prelude.{◌≡◌, ℕ, ◌+◌, ◌<◌, ◌≤◌, ◌↔◌, false, length, slice_index, slice_index_or};
ghost use Rattle.std.specs.Prelude.{IsTrue, IfOk, IfSome, IsSome, ◌⊎◌};
ghost use Rattle.std.specs.List.{All};
ghost use Rattle.path_graph.specs.Conditions.{IsGraph, IsLoop, IsBounded, IsWithin};
ghost use Rattle.path_graph.specs.Graph.{has, arc_at, loop_at, finish_at};
ghost use Rattle.path_graph.specs.Tested.{HasEnds, AreMarks, HasHead, IsNestedIn, IsSound, AreOwners, AreFalling};

use crate::graph::{Arc, Graph, LoopArcs};
use crate::order::ranks_in_depth;
use crate::sources::arcs_from;
use std::alloc::Global;
use wx_text::NoMemory;

/// Whether a graph is found to meet the conditions on its arcs and loops.
///
/// Each graph passes whose loops are natural loops in the usual sense: all arcs that lead into a loop lead to one
/// vertex, its head, as do its back arcs, and without back arcs no walk is closed. Other graphs that meet the conditions
/// may fail.
///
/// For each loop all arcs and the members of all loops before it are gone through.
pub fn is_graph(alloc: Global, graph: &Graph) -> Result<bool, NoMemory>
    ensures { IfOk result (λ yes. IsTrue yes → IsGraph graph.now) }
{
    if !has_ends(graph) || !are_sound(alloc, graph)? {
        return Ok(false);
    }
    match owners_of(alloc, graph)? {
        Some(owners) => {
            let arcs = arcs_from(alloc, graph)?;
            let ranks = ranks_in_depth(alloc, graph, &arcs, owners.as_slice())?;
            Ok(are_falling(graph, owners.as_slice(), ranks.as_slice()))
        }
        None => Ok(false),
    }
}

/// Whether the ends of arcs and the start are vertices, and the origin is a loop.
fn has_ends(graph: &Graph) -> bool
    ensures { IsTrue result → HasEnds graph.now }
{
    let count = graph.finish.len();
    for arc in graph.arcs.as_slice() {
        if arc.from as usize >= count || arc.to as usize >= count {
            return false;
        }
    }
    let has_origin = match graph.origin {
        Some(number) => (number as usize) < graph.loops.len(),
        None => true,
    };
    has_origin && (graph.start as usize) < count
}

/// Whether each loop is sound.
fn are_sound(alloc: Global, graph: &Graph) -> Result<bool, NoMemory>
    ensures { IfOk result (λ yes. IsTrue yes → (l : ℕ) → l < length graph.now.loops → IsSound graph.now l) }
{
    for number in 0..graph.loops.len() {
        if !is_sound(alloc, graph, number)? {
            return Ok(false);
        }
    }
    Ok(true)
}

/// Whether the loop with a number is sound.
fn is_sound(alloc: Global, graph: &Graph, number: usize) -> Result<bool, NoMemory>
    requires { number < length graph.now.loops }
    ensures { IfOk result (λ yes. IsTrue yes → IsSound graph.now number) }
{
    let arcs = &graph.loops.as_slice()[number];
    match marks_of(alloc, graph.finish.len(), arcs.members.as_slice())? {
        Some(marks) => Ok(is_sound_at(graph, number, marks.as_slice())),
        None => Ok(false),
    }
}

/// Whether the loop with a number is sound, when its members are marked.
fn is_sound_at(graph: &Graph, number: usize, marks: &[bool]) -> bool
    requires number { number < length graph.now.loops }
    requires marks { AreMarks (loop_at graph.now number).members marks.now }
    requires members { All (λ v. v < length graph.now.finish) (loop_at graph.now number).members }
    ensures { IsTrue result → IsSound graph.now number }
{
    let arcs = &graph.loops.as_slice()[number];
    if !has_parts(graph, arcs, marks) {
        return false;
    }
    if !has_head(graph, arcs, marks) {
        return false;
    }
    holds_earlier(graph, number, marks)
}

/// For each number below a count whether it is listed, if all that are listed are below the count.
fn marks_of(alloc: Global, count: usize, listed: &[u32]) -> Result<Option<Vec<bool>>, NoMemory>
    ensures { IfOk result (λ o. IfSome o (λ marks. AreMarks listed.now marks.items × All (λ v. v < count) listed.now)) }
{
    let mut marks = vec![in alloc; false; count]?;
    for vertex in listed {
        let vertex = *vertex as usize;
        if vertex >= marks.len() {
            return Ok(None);
        }
        marks[vertex] = true;
    }
    Ok(Some(marks))
}

/// Whether the lists of a loop are as they should be, when its members are marked.
fn has_parts(graph: &Graph, arcs: &LoopArcs, marks: &[bool]) -> bool
    requires { AreMarks arcs.now.members marks.now }
    ensures { IsTrue result → All (λ v. v < length graph.now.finish) arcs.now.members → IsLoop graph.now arcs.now }
{
    if !has_total(graph, arcs.total) {
        return false;
    }
    if !lead(graph, arcs.entries.as_slice(), marks, false) {
        return false;
    }
    lead(graph, arcs.back.as_slice(), marks, true)
}

/// Whether there is a total of a loop, if it has one.
fn has_total(graph: &Graph, total: Option<u32>) -> bool
    ensures { IsTrue result → IfSome total (λ k. k < length graph.now.totals) }
{
    match total {
        Some(number) => (number as usize) < graph.totals.len(),
        None => true,
    }
}

/// Whether a vertex is marked.
fn is_marked(marks: &[bool], vertex: u32) -> bool
    ensures { result ≡ slice_index_or marks.now vertex false }
{
    let vertex = vertex as usize;
    vertex < marks.len() && marks[vertex]
}

/// Whether all that are listed are arcs to marked vertices, from marked ones too or from none of them.
fn lead(graph: &Graph, listed: &[u64], marks: &[bool], from: bool) -> bool
    ensures { IsTrue result → All (λ a. (a < length graph.now.arcs)
        × (slice_index_or marks.now (arc_at graph.now a).from false ≡ from)
        × IsTrue (slice_index_or marks.now (arc_at graph.now a).to false)) listed.now }
{
    for number in listed {
        let number = *number as usize;
        if number >= graph.arcs.len() {
            return false;
        }
        let arc = &graph.arcs.as_slice()[number];
        if is_marked(marks, arc.from) != from || !is_marked(marks, arc.to) {
            return false;
        }
    }
    true
}

/// Whether a loop without back arcs, or else all arcs into a loop lead to where all its back arcs do.
fn has_head(graph: &Graph, arcs: &LoopArcs, marks: &[bool]) -> bool
    requires { AreMarks arcs.now.members marks.now }
    ensures { IsTrue result → HasHead graph.now arcs.now }
{
    match arcs.back.as_slice().first() {
        Some(first) => {
            let head = target_of(graph, *first);
            go_to(graph, arcs.back.as_slice(), head) && enter_at(graph, marks, head)
        }
        None => true,
    }
}

/// Where the arc with a number leads to; 0 where there is none.
fn target_of(graph: &Graph, number: u64) -> u32
    ensures { result ≡ (arc_at graph.now number).to }
{
    let number = number as usize;
    if number < graph.arcs.len() {
        graph.arcs.as_slice()[number].to
    } else {
        0
    }
}

/// Whether all arcs that are listed lead to a vertex.
fn go_to(graph: &Graph, listed: &[u64], head: u32) -> bool
    ensures { IsTrue result → All (λ a. (arc_at graph.now a).to ≡ head) listed.now }
{
    for number in listed {
        if target_of(graph, *number) != head {
            return false;
        }
    }
    true
}

/// Whether all arcs from vertices without a mark to marked ones lead to one vertex.
fn enter_at(graph: &Graph, marks: &[bool], head: u32) -> bool
    ensures { IsTrue result → (a : ℕ) → a < length graph.now.arcs
        → slice_index_or marks.now (arc_at graph.now a).from false ≡ false
        → IsTrue (slice_index_or marks.now (arc_at graph.now a).to false) → (arc_at graph.now a).to ≡ head }
{
    for arc in graph.arcs.as_slice() {
        if enters_elsewhere(arc, marks, head) {
            return false;
        }
    }
    true
}

/// Whether an arc leads from a vertex without a mark to a marked one that is not a given one.
fn enters_elsewhere(arc: &Arc, marks: &[bool], head: u32) -> bool
    ensures { (result ≡ false) → slice_index_or marks.now arc.now.from false ≡ false
        → IsTrue (slice_index_or marks.now arc.now.to false) → arc.now.to ≡ head }
{
    !is_marked(marks, arc.from) && is_marked(marks, arc.to) && arc.to != head
}

/// Whether the members of each loop before one are all marked, or none is.
fn holds_earlier(graph: &Graph, number: usize, marks: &[bool]) -> bool
    requires number { number < length graph.now.loops }
    requires marks { AreMarks (loop_at graph.now number).members marks.now }
    ensures { IsTrue result → IsNestedIn graph.now number }
{
    for earlier in 0..number {
        if !are_alike(graph.loops.as_slice()[earlier].members.as_slice(), marks) {
            return false;
        }
    }
    true
}

/// Whether all vertices are marked, or none is.
fn are_alike(vertices: &[u32], marks: &[bool]) -> bool
    ensures { IsTrue result → (u v : ℕ) → IsTrue (has vertices.now u) → IsTrue (slice_index_or marks.now u false)
        → IsTrue (has vertices.now v) → IsTrue (slice_index_or marks.now v false) }
{
    match vertices.first() {
        Some(first) => are_as(vertices, marks, is_marked(marks, *first)),
        None => true,
    }
}

/// Whether all vertices are marked, or none is, as is asked for.
fn are_as(vertices: &[u32], marks: &[bool], marked: bool) -> bool
    ensures { IsTrue result → All (λ v. slice_index_or marks.now v false ≡ marked) vertices.now }
{
    for vertex in vertices {
        if is_marked(marks, *vertex) != marked {
            return false;
        }
    }
    true
}

/// For each arc the loop that has it as a back arc, counted from 1, and 0 for none; if no arc is one of two loops.
pub fn owners_of(alloc: Global, graph: &Graph) -> Result<Option<Vec<usize>>, NoMemory>
    ensures some { IfOk result
        (λ o. IfSome o (λ owners. AreOwners graph.now (length graph.now.loops) owners.items)) }
    ensures none { IsGraph graph.now → IfOk result (λ o. IsSome o) }
{
    let mut owners = vec![in alloc; 0usize; graph.arcs.len()]?;
    if own_all(graph, owners.as_mut_slice()) {
        Ok(Some(owners))
    } else {
        Ok(None)
    }
}

/// Puts in the owners of all arcs, and says whether no arc has two. No arc has one at first.
fn own_all(graph: &Graph, owners: &mut [usize]) -> bool
    requires none { AreOwners graph.now 0 owners.old }
    requires count { length owners.old ≡ length graph.now.arcs }
    ensures owners { IsTrue result → AreOwners graph.now (length graph.now.loops) owners.new }
    ensures passes { IsGraph graph.now → IsTrue result }
{
    for number in 0..graph.loops.len() {
        if !own(graph, owners, number) {
            return false;
        }
    }
    true
}

/// Puts in a loop as the owner of its back arcs, and says whether none of them has another one.
fn own(graph: &Graph, owners: &mut [usize], number: usize) -> bool
    requires number { number < length graph.now.loops }
    requires owners { AreOwners graph.now number owners.old }
    requires count { length owners.old ≡ length graph.now.arcs }
    ensures owners { IsTrue result → AreOwners graph.now (number + 1) owners.new }
    ensures passes { IsGraph graph.now → IsTrue result }
{
    for arc in graph.loops.as_slice()[number].back.as_slice() {
        let arc = *arc as usize;
        if arc >= owners.len() {
            return false;
        }
        if !may_own(owners[arc], number + 1) {
            return false;
        }
        owners[arc] = number + 1;
    }
    true
}

/// Whether an arc with an owner, or none, may have another one.
fn may_own(owner: usize, other: usize) -> bool
    ensures { IsTrue result ↔ ((owner ≡ 0) ⊎ (owner ≡ other)) }
{
    owner == 0 || owner == other
}

/// Whether ranks fall along all arcs that have no owner.
fn are_falling(graph: &Graph, owners: &[usize], ranks: &[usize]) -> bool
    ensures { IsTrue result → AreFalling graph.now owners.now ranks.now }
{
    for (number, arc) in graph.arcs.as_slice().iter().enumerate() {
        if number_at(owners, number) == 0
            && number_at(ranks, arc.to as usize) >= number_at(ranks, arc.from as usize)
        {
            return false;
        }
    }
    true
}

/// The number at a place, 0 behind the last.
pub fn number_at(numbers: &[usize], place: usize) -> usize
    ensures { result ≡ slice_index numbers.now place }
{
    numbers.get(place).copied().unwrap_or(0)
}
