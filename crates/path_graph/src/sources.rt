//! The arcs of a graph by the vertex that they leave.
ghost use Rattle.std.specs.Prelude.{◌≡◌, ℕ, ◌<◌, length, replicate, IfOk};
ghost use Rattle.path_graph.specs.Graph.{arc_at};
ghost use Rattle.path_graph.specs.Sources.{AreSources, AreArcsFrom};

use crate::graph::Graph;
use std::alloc::Global;
use wx_text::NoMemory;

/// The arcs of each vertex, from the last one back to the first.
#[derive(Drop)]
pub struct ArcsFrom {
    /// For each vertex the last arc that leaves it.
    pub last: Vec<Option<usize>>,
    /// For each arc the last one before it that leaves the same vertex.
    pub previous: Vec<Option<usize>>,
}

/// The arcs of each vertex. Linear.
pub fn arcs_from(alloc: Global, graph: &Graph) -> Result<ArcsFrom, NoMemory>
    requires { AreSources graph.now }
    ensures { IfOk result (λ arcs. AreArcsFrom graph.now arcs.last.items arcs.previous.items) }
{
    let mut last = vec![in alloc; None; graph.finish.len()]?;
    let mut previous = vec![in alloc; None; graph.arcs.len()]?;
    link_arcs(graph, last.as_mut_slice(), previous.as_mut_slice());
    Ok(ArcsFrom { last, previous })
}

/// Puts in for each vertex its last arc, and for each arc the last one before it from the same vertex.
fn link_arcs(graph: &Graph, last: &mut [Option<usize>], previous: &mut [Option<usize>])
    requires sources { AreSources graph.now }
    requires last { last.old ≡ replicate (length graph.now.finish) None }
    requires previous { length previous.old ≡ length graph.now.arcs }
    ensures { AreArcsFrom graph.now last.new previous.new }
{
    for (number, arc) in graph.arcs.as_slice().iter().enumerate() {
        let from = arc.from as usize;
        previous[number] = last[from];
        last[from] = Some(number);
    }
}
