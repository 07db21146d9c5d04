ghost use Rattle.std.specs.Prelude.{◌<◌, length, IfOk};
ghost use Rattle.graph_loops.specs.Loops.{AreLoops, IsLeastCycle};

use crate::cycles::least_cyclic;
use crate::graph::Graph;
use crate::loops::Loops;
use crate::members::loops_of;
use crate::ways::Ways;
use std::alloc::Global;
use wx_base::NoMemory;

/// The cycles of what is reached from an entry.
#[derive(Debug, Drop)]
pub struct Structure {
    /// The least vertex on a cycle of forward edges, which is entered at two places. Where there is none, each cycle
    /// leads through the head of a loop.
    pub cycle: Option<usize>,
    /// All loops.
    pub loops: Loops,
}

/// The loops of what is reached from an entry, and the least vertex on a cycle of forward edges.
///
/// Loops are the textbook's natural loops, those with one head as one. A walk over the graph for each vertex that may
/// be a head (the entry, if an edge leads to it, and where edges come from two places), and one for each head. Where
/// the graph is irreducible, a walk for each vertex.
pub fn structure_of(alloc: Global, graph: &Graph, entry: usize) -> Result<Structure, NoMemory>
    requires { entry < length graph.now }
    ensures cycle { IfOk result (λ structure. IsLeastCycle graph.now entry structure.cycle) }
    ensures loops { IfOk result (λ structure. AreLoops graph.now entry structure.loops) }
{
    let ways = Ways::of_graph(alloc, graph, entry)?;
    let cycle = least_cyclic(alloc, ways.forward.as_slice())?;
    let loops = loops_of(alloc, graph, &ways)?;
    Ok(Structure { cycle, loops })
}
