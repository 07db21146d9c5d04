ghost use Rattle.std.specs.Prelude.{◌≡◌, ◌<◌, ◌⊎◌, [], ◌∷◌, length, Decides, IfOk, MatchBool};
ghost use Rattle.graph_loops.specs.Graph.{AreReached, AreVertices};
ghost use Rattle.graph_loops.specs.Ways.{AreBackInto, AreChosen, AreForwardInto, AreSame, AreWays};

use crate::graph::{Graph, reach};
use crate::lists::list_at;
use std::alloc::Global;
use wx_base::NoMemory;

/// What is reached from an entry, and the edges between vertices reached, by their targets.
#[derive(Drop)]
pub(crate) struct Ways {
    pub(crate) entry: usize,
    /// Whether each vertex is reached.
    pub(crate) body: Vec<bool>,
    /// For each vertex the sources of the forward edges into it.
    pub(crate) forward: Vec<Vec<usize>>,
    /// For each vertex the sources of the back edges into it.
    pub(crate) back: Vec<Vec<usize>>,
}

/// The sources of the edges into one vertex.
#[derive(Drop)]
struct Sources {
    forward: Vec<usize>,
    back: Vec<usize>,
}

impl Ways {
    /// The edges of a graph from an entry.
    ///
    /// A walk for each vertex that may be a head: the entry, if an edge leads to it, and where edges come from two
    /// places.
    pub(crate) fn of_graph(alloc: Global, graph: &Graph, entry: usize) -> Result<Ways, NoMemory>
        requires { entry < length graph.now }
        ensures entry { IfOk result (λ ways. ways.entry ≡ entry) }
        ensures ways { IfOk result (λ ways. AreWays graph.now ways) }
    {
        let body = reach(alloc, graph, &[entry], None)?;
        let mut forward = Vec::new(alloc);
        let mut back = Vec::new(alloc);
        for v in 0..graph.len() {
            let sources = sources_into(alloc, graph, entry, body.as_slice(), v)?;
            forward.push(sources.forward)?;
            back.push(sources.back)?;
        }
        Ok(Ways {
            entry,
            body,
            forward,
            back,
        })
    }
}

/// The sources of the edges into a vertex, those of back edges apart.
fn sources_into(
    alloc: Global,
    graph: &Graph,
    entry: usize,
    body: &[bool],
    v: usize,
) -> Result<Sources, NoMemory>
    requires entry { entry < length graph.now }
    requires vertex { v < length graph.now }
    requires body { AreReached graph.now [] (entry ∷ []) body.now }
    ensures forward { IfOk result (λ sources. AreForwardInto graph.now entry v sources.forward.items) }
    ensures back { IfOk result (λ sources. AreBackInto graph.now entry v sources.back.items) }
{
    let into = chosen(alloc, list_at(graph.sources(), v), body, true)?;
    if !may_be_head(entry, v, into.as_slice()) {
        return Ok(Sources {
            forward: into,
            back: Vec::new(alloc),
        });
    }
    let away = reach(alloc, graph, &[entry], Some(v))?;
    Ok(Sources {
        forward: chosen(alloc, into.as_slice(), away.as_slice(), true)?,
        back: chosen(alloc, into.as_slice(), away.as_slice(), false)?,
    })
}

/// Whether a vertex may be a head. A path first comes to a head by a forward edge, so a back edge never comes alone,
/// but into the entry.
fn may_be_head(entry: usize, v: usize, into: &[usize]) -> bool
    ensures { MatchBool result ((v ≡ entry) ⊎ (AreSame into.now → ⊥)) ((v ≡ entry → ⊥) × AreSame into.now) }
{
    v == entry || !are_same(into)
}

/// Those of some vertices that have this mark.
fn chosen(
    alloc: Global,
    vertices: &[usize],
    marks: &[bool],
    mark: bool,
) -> Result<Vec<usize>, NoMemory>
    requires { AreVertices (length marks.now) vertices.now }
    ensures { IfOk result (λ chosen. AreChosen vertices.now marks.now mark chosen.items) }
{
    let mut chosen = Vec::new(alloc);
    for v in vertices {
        if marks[*v] == mark {
            chosen.push(*v)?;
        }
    }
    Ok(chosen)
}

/// Whether all vertices are the same.
fn are_same(vertices: &[usize]) -> bool
    ensures { Decides result (AreSame vertices.now) }
{
    for v in vertices {
        if *v != vertices[0] {
            return false;
        }
    }
    true
}
