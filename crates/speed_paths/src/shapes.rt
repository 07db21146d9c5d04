//! Graphs of some shapes.

use crate::draft::{Draft, LoopDraft};
use anyhow::{Result, ensure};
use path_graph::Graph;
use std::alloc::Global;

/// How large a row of nested loops is.
#[derive(Clone, Copy)]
pub struct Sizes {
    /// How deep the loops are nested, at most 16.
    pub depth: u32,
    /// How many loops stand in a loop.
    pub width: u32,
    /// How many of the outermost loops there are.
    pub count: u32,
    /// How many totals the outermost loops share in turn.
    pub totals: u32,
}

/// A part of a graph: the vertex at which it is entered, the one from which one goes on, and its loop.
#[derive(Clone, Copy)]
struct Part {
    first: u32,
    last: u32,
    place: Option<usize>,
}

/// A chain of vertices, each with arcs to the next three.
pub fn chain(alloc: Global, vertices: u32) -> Result<Graph> {
    ensure!(vertices < 1_000_000, "fewer vertices are wanted");
    let mut draft = Draft::new(alloc);
    for _ in 0..vertices {
        draft.push_vertex()?;
    }
    for from in 0..vertices {
        for to in from + 1..vertices.min(from + 4) {
            draft.push_arc(from, to)?;
        }
    }
    draft.into_graph(alloc, Vec::new(alloc), None)
}

/// A row of nested loops.
pub fn nest(alloc: Global, sizes: Sizes) -> Result<Graph> {
    ensure!(sizes.depth <= 16, "a depth up to 16 is wanted");
    let mut draft = Draft::new(alloc);
    let mut before: Option<u32> = None;
    let mut origin = None;
    for number in 0..sizes.count {
        let part = push_part(alloc, &mut draft, sizes.depth, sizes.width)?;
        match before {
            Some(last) => draft.push_entry(last, part.first, part.place)?,
            None => origin = part.place,
        }
        if let Some(place) = part.place {
            if sizes.totals > 0 && place < draft.loops.len() {
                draft.loops[place].total = Some(number % sizes.totals);
            }
        }
        before = Some(part.last);
    }
    let mut totals = Vec::new(alloc);
    for number in 0..sizes.totals {
        totals.push(number as u64)?;
    }
    let origin = match origin {
        Some(place) => Some(u32::try_from(place)?),
        None => None,
    };
    draft.into_graph(alloc, totals, origin)
}

/// Appends a part of some depth: a vertex, or a loop whose body is a row of parts.
fn push_part(alloc: Global, draft: &mut Draft, depth: u32, width: u32) -> Result<Part> {
    let first = draft.push_vertex()?;
    if depth == 0 {
        return Ok(Part {
            first,
            last: first,
            place: None,
        });
    }
    let mut exits: Vec<u32> = Vec::new(alloc);
    let mut before = first;
    for _ in 0..width {
        let part = push_part(alloc, draft, depth - 1, width)?;
        draft.push_entry(before, part.first, part.place)?;
        draft.push_entry(first, part.first, part.place)?;
        exits.push(before)?;
        before = part.last;
    }
    exits.push(before)?;
    push_loop(alloc, draft, first, exits.as_slice())
}

/// Appends the loop of all vertices from one on and a last one, to which some exits lead.
fn push_loop(alloc: Global, draft: &mut Draft, first: u32, exits: &[u32]) -> Result<Part> {
    let last = draft.push_vertex()?;
    for exit in exits {
        draft.push_arc(*exit, last)?;
    }
    let mut back = Vec::new(alloc);
    back.push(draft.push_arc(last, first)?)?;
    let mut members = Vec::new(alloc);
    for vertex in first..last {
        members.push(vertex)?;
    }
    members.push(last)?;
    let place = draft.loops.len();
    draft.loops.push(LoopDraft {
        members,
        back,
        entries: Vec::new(alloc),
        total: None,
    })?;
    Ok(Part {
        first,
        last,
        place: Some(place),
    })
}
