//! What is found of a graph once, for all that is worked out on it.
ghost use Rattle.std.specs.Prelude.{◌≡◌, ℕ, ◌<◌, length, IfOk};
ghost use Rattle.std.specs.List.{All, Contains};
ghost use Rattle.path_graph.specs.Conditions.{IsGraph, IsBounded};
ghost use Rattle.path_problem.specs.Layout.{IsLayout, IsLayoutOf};
ghost use Rattle.path_graph.specs.Sources.{AreAdded, AreSame, HasArcsOf};

use path_graph::{ArcsFrom, Graph, arcs_from, owners_of, ranks_in_depth};
use std::alloc::Global;
use wx_text::NoMemory;

/// A graph with what is found of it once.
#[derive(Drop)]
pub(crate) struct Layout<'a> {
    /// The graph.
    pub(crate) graph: &'a Graph,
    /// The arcs of each vertex.
    pub(crate) arcs: ArcsFrom,
    /// For each arc the loop that has it as a back arc, counted from 1, and 0 for none.
    pub(crate) owners: Vec<usize>,
    /// A rank for each vertex: arcs other than back arcs lead to lower ones. That matters for time alone.
    pub(crate) ranks: Vec<usize>,
}

/// What is found of a graph once. Linear.
pub(crate) fn layout_of<'a>(alloc: Global, graph: &'a Graph) -> Result<Layout<'a>, NoMemory>
    requires { IsGraph graph.now }
    ensures { IfOk result (IsLayoutOf graph.now) }
{
    let arcs = arcs_from(alloc, graph)?;
    match owners_of(alloc, graph)? {
        Some(owners) => {
            let ranks = ranks_in_depth(alloc, graph, &arcs, owners.as_slice())?;
            Ok(Layout {
                graph,
                arcs,
                owners,
                ranks,
            })
        }
        None => unreachable!(),
    }
}

/// Some vertices, those of lower rank first.
pub(crate) fn in_order(
    alloc: Global,
    layout: &Layout<'_>,
    vertices: &[u32],
) -> Result<Vec<u32>, NoMemory>
    ensures { IfOk result (λ order. AreSame vertices.now order.items) }
{
    let ranks = layout.ranks.as_slice();
    let mut order = Vec::from_slice(alloc, vertices)?;
    order.sort_by_key(|vertex| ranks.get(*vertex as usize).copied().unwrap_or(0))?;
    Ok(order)
}

/// The numbers below a count, ascending.
fn numbers_below(alloc: Global, count: u32) -> Result<Vec<u32>, NoMemory>
    ensures within { IfOk result (λ numbers. All (λ v. v < count) numbers.items) }
    ensures each { IfOk result (λ numbers. (v : ℕ) → v < count → Contains numbers.items v) }
{
    let mut numbers = Vec::with_capacity(alloc, count as usize)?;
    for number in 0..count {
        numbers.push(number)?;
    }
    Ok(numbers)
}

/// The numbers of all arcs, those first whose sources have lower ranks. So all arcs but back arcs lead to sources of
/// arcs that stand before them, or to vertices that no arc leaves.
pub(crate) fn arcs_in_order(alloc: Global, layout: &Layout<'_>) -> Result<Vec<usize>, NoMemory>
    requires layout { IsLayout layout.now }
    requires bounded { IsBounded layout.now.graph.now }
    ensures within { IfOk result (λ order. All (λ a. a < length layout.now.graph.now.arcs) order.items) }
    ensures each { IfOk result (λ order. (a : ℕ) → a < length layout.now.graph.now.arcs → Contains order.items a) }
{
    let numbers = numbers_below(alloc, layout.graph.finish.len() as u32)?;
    let vertices = in_order(alloc, layout, numbers.as_slice())?;
    arcs_of(alloc, layout, vertices.as_slice())
}

/// The numbers of the arcs that leave some vertices, vertex by vertex.
pub(crate) fn arcs_of(
    alloc: Global,
    layout: &Layout<'_>,
    vertices: &[u32],
) -> Result<Vec<usize>, NoMemory>
    requires layout { IsLayout layout.now }
    requires vertices { All (λ v. v < length layout.now.graph.now.finish) vertices.now }
    ensures within { IfOk result (λ arcs. All (λ a. a < length layout.now.graph.now.arcs) arcs.items) }
    ensures each { IfOk result (λ arcs. HasArcsOf layout.now.graph.now vertices.now arcs.items) }
{
    let mut arcs = Vec::new(alloc);
    for vertex in vertices {
        push_arcs_of(layout, *vertex as usize, &mut arcs)?;
    }
    Ok(arcs)
}

/// Appends the numbers of the arcs that leave a vertex.
fn push_arcs_of(layout: &Layout<'_>, vertex: usize, arcs: &mut Vec<usize>) -> Result<(), NoMemory>
    requires layout { IsLayout layout.now }
    requires vertex { vertex < length layout.now.graph.now.finish }
    ensures { IfOk result (λ _. AreAdded layout.now.graph.now vertex arcs.old.items arcs.new.items) }
{
    let previous = layout.arcs.previous.as_slice();
    let mut next = layout.arcs.last.as_slice()[vertex];
    'steps: while let Some(number) = next {
        arcs.push(number)?;
        next = previous[number];
    }
    Ok(())
}
