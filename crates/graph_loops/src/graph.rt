ghost use Rattle.std.specs.Prelude.{◌≡◌, ◌<◌, length, option_to_list, IfOk};
ghost use Rattle.graph_loops.specs.Graph.{lists_of, edges, AreReached, AreVertices, IsGraph};
ghost use Rattle.graph_loops.specs.Walk.{AreSources};

use crate::lists::list_at;
use crate::sources::sources_of;
use crate::walk::walk;
use std::alloc::Global;
use std::marker::Model;
use wx_base::NoMemory;

/// A graph whose vertices are the numbers from 0. Contracts see, for each vertex, the list of those that it leads to.
#[derive(Drop)]
pub struct Graph {
    leads: Vec<Vec<usize>>,
    sources: Vec<Vec<usize>>,
}

impl Model for Graph {
    ghost use Rattle.std.specs.Prelude.{ℕ, List};
    ghost use Rattle.graph_loops.specs.Graph.{lists_of, IsGraph};
    ghost use Rattle.graph_loops.specs.Walk.{AreSources};

    ghost Value = { List (List ℕ) };

    ghost view = { λ g. lists_of g.leads.items };

    ghost invariant = { λ g. IsGraph (lists_of g.leads.items)
        × AreSources (lists_of g.leads.items) (lists_of g.sources.items) };
}

impl Graph {
    /// The graph whose vertices lead to the numbers in these lists, each of which is below the number of lists.
    ///
    /// Takes memory for the edges turned round. Linear in the vertices and edges.
    pub fn new(alloc: Global, leads: Vec<Vec<usize>>) -> Result<Graph, NoMemory>
        requires { IsGraph (lists_of leads.items) }
        ensures { IfOk result (λ graph. graph ≡ lists_of leads.items) }
    {
        let sources = sources_of(alloc, leads.as_slice())?;
        Ok(Graph { leads, sources })
    }

    /// The number of vertices. Each number in the lists of a graph is one.
    pub fn len(&self) -> usize
        ensures count { result ≡ length self.now }
        ensures graph { IsGraph self.now }
    {
        self.leads.len()
    }

    /// What a vertex leads to.
    pub fn targets(&self, v: usize) -> &[usize]
        requires { v < length self.now }
        ensures { result.now ≡ edges self.now v }
    {
        list_at(self.leads(), v)
    }

    /// What each vertex leads to.
    pub(crate) fn leads(&self) -> &[Vec<usize>]
        ensures lists { lists_of result.now ≡ self.now }
        ensures graph { IsGraph self.now }
    {
        self.leads.as_slice()
    }

    /// For each vertex those that lead to it.
    pub(crate) fn sources(&self) -> &[Vec<usize>]
        ensures { AreSources self.now (lists_of result.now) }
    {
        self.sources.as_slice()
    }
}

/// The vertices, as marks, to which a path without the vertex `avoided` leads from some of the roots. A root is reached
/// unless it is avoided.
///
/// Linear in the vertices and edges.
pub fn reach(
    alloc: Global,
    graph: &Graph,
    roots: &[usize],
    avoided: Option<usize>,
) -> Result<Vec<bool>, NoMemory>
    requires { AreVertices (length graph.now) roots.now }
    ensures { IfOk result (λ marks. AreReached graph.now (option_to_list avoided) roots.now marks.items) }
{
    walk(alloc, graph.leads(), roots, avoided)
}
