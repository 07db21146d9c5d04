//! Graphs of numbers.

ghost use Rattle.std.specs.Prelude.{◌≡◌, ◌<◌, IfOk, length};
ghost use Rattle.graph_loops.specs.Graph.{AreVertices, IsGraph, lists_of};

use crate::parts::{number, pair};
use anyhow::{Result, ensure};
use graph_loops::{Graph, Loop, Structure, reach, structure_of};
use std::alloc::Global;
use std::fmt::Write;

/// The vertices that a text lists, each below a count.
fn vertices_of(alloc: Global, count: usize, text: &str) -> Result<Vec<usize>>
    ensures { IfOk result (λ vertices. AreVertices count vertices.items) }
{
    let mut vertices = Vec::new(alloc);
    for word in text.split_whitespace() {
        let vertex = number(word)?;
        ensure!(vertex < count, "there is no vertex {vertex}");
        vertices.push(vertex)?;
    }
    Ok(vertices)
}

/// The lists of a text, of which there are to be so many: what each vertex leads to, with `,` between two lists.
fn lists_of_text(alloc: Global, count: usize, text: &str) -> Result<Vec<Vec<usize>>>
    ensures { IfOk result (λ lists. IsGraph (lists_of lists.items) × (length lists.items ≡ count)) }
{
    let mut lists = Vec::new(alloc);
    for part in text.split(',') {
        lists.push(vertices_of(alloc, count, part)?)?;
    }
    ensure!(lists.len() == count, "{count} lists are wanted");
    Ok(lists)
}

/// The graph of a text: the number of vertices, a colon, and the lists.
fn graph_of(alloc: Global, text: &str) -> Result<Graph> {
    let (count, lists) = pair(text, ":")?;
    Ok(Graph::new(alloc, lists_of_text(alloc, number(count)?, lists)?)?)
}

/// Appends the loops of what vertex 0 of a graph reaches, and the least vertex on a cycle without back edges.
pub fn push_loops(alloc: Global, out: &mut String, case: &str) -> Result<()> {
    let graph = graph_of(alloc, case)?;
    ensure!(graph.len() > 0, "a vertex is wanted");
    let structure = structure_of(alloc, &graph, 0)?;
    push_structure(out, &structure)
}

fn push_structure(out: &mut String, structure: &Structure) -> Result<()> {
    for found in structure.loops.as_slice() {
        push_loop(out, found)?;
    }
    if let Some(vertex) = structure.cycle {
        write!(out, " irreducible at {vertex}")?;
    }
    Ok(())
}

fn push_loop(out: &mut String, found: &Loop) -> Result<()> {
    let head = found.head;
    write!(out, " loop {head} of")?;
    for member in found.members.as_slice() {
        write!(out, " {member}")?;
    }
    Ok(())
}

/// Appends what vertex 0 of a graph reaches, by paths that avoid a vertex if one is named.
pub fn push_reached(alloc: Global, out: &mut String, case: &str) -> Result<()> {
    let (graph, avoided) = pair(case, " avoiding")?;
    let graph = graph_of(alloc, graph)?;
    let avoided = vertices_of(alloc, graph.len(), avoided)?;
    let roots = vertices_of(alloc, graph.len(), "0")?;
    let marks = reach(alloc, &graph, &roots, avoided.first().copied())?;
    push_marked(out, &marks)
}

fn push_marked(out: &mut String, marks: &[bool]) -> Result<()> {
    for (vertex, mark) in marks.iter().enumerate() {
        if *mark {
            write!(out, " {vertex}")?;
        }
    }
    Ok(())
}
