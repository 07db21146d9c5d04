//! A graph that grows.

use anyhow::Result;
use path_graph::{Arc, Graph, LoopArcs};
use std::alloc::Global;
use wx_text::List;

/// A loop that grows.
#[derive(Drop)]
pub struct LoopDraft {
    /// Its members.
    pub members: Vec<u32>,
    /// Its back arcs.
    pub back: Vec<u64>,
    /// The arcs that enter it.
    pub entries: Vec<u64>,
    /// The position of its total.
    pub total: Option<u32>,
}

/// A graph that grows. Each arc has weight 1, each vertex finish 0, each loop count 10.
#[derive(Drop)]
pub struct Draft {
    finish: Vec<i128>,
    arcs: Vec<Arc>,
    /// The loops, inner before outer.
    pub loops: Vec<LoopDraft>,
}

impl Draft {
    /// A graph without vertices.
    pub fn new(alloc: Global) -> Draft {
        Draft {
            finish: Vec::new(alloc),
            arcs: Vec::new(alloc),
            loops: Vec::new(alloc),
        }
    }

    /// Appends a vertex, and gives its number.
    pub fn push_vertex(&mut self) -> Result<u32> {
        let number = u32::try_from(self.finish.len())?;
        self.finish.push(0)?;
        Ok(number)
    }

    /// Appends an arc, and gives its number.
    pub fn push_arc(&mut self, from: u32, to: u32) -> Result<u64> {
        let number = self.arcs.len() as u64;
        self.arcs.push(Arc {
            from,
            to,
            weight: 1,
        })?;
        Ok(number)
    }

    /// Appends an arc that enters a loop, where one is given.
    pub fn push_entry(&mut self, from: u32, to: u32, entered: Option<usize>) -> Result<()> {
        let number = self.push_arc(from, to)?;
        if let Some(place) = entered {
            if place < self.loops.len() {
                self.loops[place].entries.push(number)?;
            }
        }
        Ok(())
    }

    /// The graph, whose walks begin at vertex 0.
    pub fn into_graph(self, alloc: Global, totals: Vec<u64>, origin: Option<u32>) -> Result<Graph> {
        let mut loops = Vec::new(alloc);
        for draft in self.loops {
            loops.push(LoopArcs {
                members: List::new(draft.members),
                back: List::new(draft.back),
                entries: List::new(draft.entries),
                maxcount: 10,
                total: draft.total,
            })?;
        }
        Ok(Graph {
            finish: List::new(self.finish),
            arcs: List::new(self.arcs),
            loops: List::new(loops),
            totals: List::new(totals),
            start: 0,
            origin,
        })
    }
}
