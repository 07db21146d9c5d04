//! Ranks of a graph's vertices by which few rounds settle labels. That they are good ones matters for time alone.
use crate::graph::Graph;
use crate::sources::ArcsFrom;
use std::alloc::Global;
use wx_text::NoMemory;

/// A vertex to which a walk in depth came.
#[derive(Clone, Copy)]
struct Stop {
    vertex: usize,
    /// The arc from the vertex that comes next.
    next: Option<usize>,
}

/// A walk in depth that takes no arc with an owner.
#[derive(Drop)]
struct Walk<'a> {
    graph: &'a Graph,
    arcs: &'a ArcsFrom,
    owners: &'a [usize],
    /// The vertices on the way.
    stops: Vec<Stop>,
    /// For each vertex whether the walk came to it.
    seen: Vec<bool>,
}

impl<'a> Walk<'a> {
    /// Comes to a vertex, unless it did so before.
    fn enter(&mut self, vertex: usize) -> Result<(), NoMemory> {
        if vertex < self.seen.len() && !self.seen[vertex] {
            self.seen[vertex] = true;
            let next = self.arcs.last.get(vertex).copied().unwrap_or(None);
            self.stops.push(Stop { vertex, next })?;
        }
        Ok(())
    }

    /// Goes on along the next arc from the last stop. The answer is the vertex that is left for good, if one is.
    fn go_on(&mut self) -> Result<Option<usize>, NoMemory> {
        match self.stops.pop() {
            Some(stop) => match stop.next {
                Some(number) => {
                    let next = self.arcs.previous.get(number).copied().unwrap_or(None);
                    self.stops.push(Stop {
                        vertex: stop.vertex,
                        next,
                    })?;
                    self.take(number)?;
                    Ok(None)
                }
                None => Ok(Some(stop.vertex)),
            },
            None => Ok(None),
        }
    }

    /// Takes an arc that has no owner.
    fn take(&mut self, number: usize) -> Result<(), NoMemory> {
        if self.owners.get(number).copied().unwrap_or(0) == 0 {
            if let Some(arc) = self.graph.arcs.as_slice().get(number) {
                self.enter(arc.to as usize)?;
            }
        }
        Ok(())
    }
}

/// For each vertex how many others a walk in depth left before it that takes no arc with an owner. Linear.
pub fn ranks_in_depth(
    alloc: Global,
    graph: &Graph,
    arcs: &ArcsFrom,
    owners: &[usize],
) -> Result<Vec<usize>, NoMemory> {
    let count = graph.finish.len();
    let mut walk = Walk {
        graph,
        arcs,
        owners,
        stops: Vec::new(alloc),
        seen: vec![in alloc; false; count]?,
    };
    let mut ranks = vec![in alloc; 0usize; count]?;
    let mut rank = 0usize;
    let mut root = 0usize;
    let steps = count.saturating_mul(2).saturating_add(graph.arcs.len());
    for _ in 0..steps {
        if walk.stops.is_empty() {
            walk.enter(root)?;
            root = root.saturating_add(1);
        } else if let Some(vertex) = walk.go_on()? {
            rank = rank.saturating_add(1);
            if vertex < ranks.len() {
                ranks[vertex] = rank;
            }
        }
    }
    Ok(ranks)
}
