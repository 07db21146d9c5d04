ghost use Rattle.std.specs.Prelude.{◌≡◌, ◌<◌, ◌↔◌, ℕ, length, Contains, Decides, IfOk, MatchOption};
ghost use Rattle.wx_base.specs.Facts.{AreAscending};
ghost use Rattle.wx_base.specs.Paths.{IsHead, IsMember};
ghost use Rattle.graph_loops.specs.Graph.{edges};
ghost use Rattle.graph_loops.specs.Ways.{AreWays};
ghost use Rattle.graph_loops.specs.Loops.{AreLoops, AreTaken, IsLoop, IsTaken};

use crate::graph::Graph;
use crate::lists::list_at;
use crate::loops::{Loop, Loops, Vertices};
use crate::walk::walk;
use crate::ways::Ways;
use std::alloc::Global;
use wx_base::NoMemory;

/// The loops of a graph: a walk for each head.
pub(crate) fn loops_of(alloc: Global, graph: &Graph, ways: &Ways) -> Result<Loops, NoMemory>
    requires { AreWays graph.now ways.now }
    ensures { IfOk result (λ loops. AreLoops graph.now ways.now.entry loops) }
{
    let mut loops = Vec::new(alloc);
    for head in 0..graph.len() {
        if let Some(found) = loop_at(alloc, graph, ways, head)? {
            loops.push(found)?;
        }
    }
    Ok(Loops::new(loops))
}

/// The loop of a vertex, if it is a head.
fn loop_at(alloc: Global, graph: &Graph, ways: &Ways, head: usize) -> Result<Option<Loop>, NoMemory>
    requires ways { AreWays graph.now ways.now }
    requires vertex { head < length graph.now }
    ensures { IfOk result (λ found. MatchOption found
        (IsHead (edges graph.now) ways.now.entry head → ⊥)
        (λ l. (l.head ≡ head) × IsLoop graph.now ways.now.entry l)) }
{
    if list_at(ways.back.as_slice(), head).is_empty() {
        return Ok(None);
    }
    let members = members_of(alloc, graph, ways, head)?;
    Ok(Some(Loop { head, members }))
}

/// The members of the loop of a head.
fn members_of(alloc: Global, graph: &Graph, ways: &Ways, head: usize) -> Result<Vertices, NoMemory>
    requires ways { AreWays graph.now ways.now }
    requires vertex { head < length graph.now }
    ensures ascending { IfOk result (λ members. AreAscending members) }
    ensures exact { IfOk result (λ members.
        (a : ℕ) → Contains members a ↔ IsMember (edges graph.now) ways.now.entry head a) }
{
    let back = list_at(ways.back.as_slice(), head);
    let marks = walk(alloc, graph.sources(), back, Some(head))?;
    let members = taken(alloc, head, marks.as_slice(), ways.body.as_slice())?;
    Ok(Vertices::new(members))
}

/// The head, and the vertices reached that are marked, ascending.
fn taken(alloc: Global, head: usize, marks: &[bool], body: &[bool]) -> Result<Vec<usize>, NoMemory>
    requires { length marks.now ≡ length body.now }
    ensures { IfOk result (λ taken. AreTaken head marks.now body.now (length body.now) taken.items) }
{
    let mut taken = Vec::new(alloc);
    for v in 0..body.len() {
        if is_taken(head, marks, body, v) {
            taken.push(v)?;
        }
    }
    Ok(taken)
}

/// Whether a vertex is the head, or reached and marked.
fn is_taken(head: usize, marks: &[bool], body: &[bool], v: usize) -> bool
    requires marks { v < length marks.now }
    requires body { v < length body.now }
    ensures { Decides result (IsTaken head marks.now body.now v) }
{
    v == head || marks[v] && body[v]
}
