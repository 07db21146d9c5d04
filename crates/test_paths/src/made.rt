//! Graphs of texts, put together part by part.

use crate::parts::{number, numbers, pair, small, whole};
use anyhow::{Result, bail};
use path_graph::{Arc, Graph, LoopArcs};
use std::alloc::Global;
use wx_text::List;

/// A graph that grows.
#[derive(Drop)]
struct Draft {
    finish: Vec<i128>,
    arcs: Vec<Arc>,
    loops: Vec<LoopArcs>,
    totals: Vec<u64>,
    start: u32,
    origin: Option<u32>,
}

/// The lists of a loop that grow.
#[derive(Drop)]
struct LoopDraft {
    members: Vec<u32>,
    back: Vec<u64>,
    entries: Vec<u64>,
    maxcount: u64,
    total: Option<u32>,
}

impl Draft {
    /// A graph without vertices.
    fn new(alloc: Global) -> Draft {
        Draft {
            finish: Vec::new(alloc),
            arcs: Vec::new(alloc),
            loops: Vec::new(alloc),
            totals: Vec::new(alloc),
            start: 0,
            origin: None,
        }
    }

    /// The graph.
    fn into_graph(self) -> Graph {
        Graph {
            finish: List::new(self.finish),
            arcs: List::new(self.arcs),
            loops: List::new(self.loops),
            totals: List::new(self.totals),
            start: self.start,
            origin: self.origin,
        }
    }
}

impl LoopDraft {
    /// A loop without members.
    fn new(alloc: Global) -> LoopDraft {
        LoopDraft {
            members: Vec::new(alloc),
            back: Vec::new(alloc),
            entries: Vec::new(alloc),
            maxcount: 0,
            total: None,
        }
    }

    /// The loop.
    fn into_loop(self) -> LoopArcs {
        LoopArcs {
            members: List::new(self.members),
            back: List::new(self.back),
            entries: List::new(self.entries),
            maxcount: self.maxcount,
            total: self.total,
        }
    }
}

/// The graph of a text, whose parts stand between semicolons: `finish` with a number for each vertex, `arc` with both
/// ends and the weight, `loop` with the lists of its parts, `totals`, `start` and `origin`.
pub fn graph_of(alloc: Global, text: &str) -> Result<Graph> {
    let mut draft = Draft::new(alloc);
    for part in text.split(';') {
        push_part(alloc, &mut draft, part)?;
    }
    Ok(draft.into_graph())
}

/// Appends a part of a graph: a word that says which, and what it has.
fn push_part(alloc: Global, draft: &mut Draft, part: &str) -> Result<()> {
    let (name, rest) = match part.trim().split_once(" ") {
        Some(both) => both,
        None => (part.trim(), ""),
    };
    match name {
        "finish" => push_finishes(draft, rest),
        "arc" => push_arc_of(draft, rest),
        "loop" => Ok(draft.loops.push(loop_of(alloc, rest)?)?),
        "totals" => {
            draft.totals = numbers(alloc, rest)?;
            Ok(())
        }
        "start" => {
            draft.start = small(rest)?;
            Ok(())
        }
        "origin" => {
            draft.origin = Some(small(rest)?);
            Ok(())
        }
        _ => bail!("no part of a graph"),
    }
}

fn push_finishes(draft: &mut Draft, text: &str) -> Result<()> {
    for word in text.split_whitespace() {
        draft.finish.push(whole(word)?)?;
    }
    Ok(())
}

/// Appends an arc: both its ends, a colon and its weight.
fn push_arc_of(draft: &mut Draft, text: &str) -> Result<()> {
    let (ends, weight) = pair(text, ": ")?;
    let (from, to) = pair(ends, " ")?;
    let arc = Arc {
        from: small(from)?,
        to: small(to)?,
        weight: whole(weight)?,
    };
    draft.arcs.push(arc)?;
    Ok(())
}

/// What the words of a loop give.
#[derive(Clone, Copy)]
enum Part {
    Nothing,
    Members,
    Back,
    Entries,
    Count,
    Total,
}

/// What the words behind a name give, if it is one.
fn part_named(word: &str) -> Option<Part> {
    match word {
        "of" => Some(Part::Members),
        "back" => Some(Part::Back),
        "entry" => Some(Part::Entries),
        "max" => Some(Part::Count),
        "total" => Some(Part::Total),
        _ => None,
    }
}

/// The loop of a text: each list stands behind its name.
fn loop_of(alloc: Global, text: &str) -> Result<LoopArcs> {
    let mut draft = LoopDraft::new(alloc);
    let mut part = Part::Nothing;
    for word in text.split_whitespace() {
        match part_named(word) {
            Some(named) => part = named,
            None => push_word(&mut draft, part, word)?,
        }
    }
    Ok(draft.into_loop())
}

/// Appends what a word gives.
fn push_word(draft: &mut LoopDraft, part: Part, word: &str) -> Result<()> {
    match part {
        Part::Nothing => bail!("no list of a loop"),
        Part::Members => draft.members.push(small(word)?)?,
        Part::Back => draft.back.push(number(word)?)?,
        Part::Entries => draft.entries.push(number(word)?)?,
        Part::Count => draft.maxcount = number(word)?,
        Part::Total => draft.total = Some(small(word)?),
    }
    Ok(())
}
