ghost use Rattle.std.specs.Prelude.{◌≡◌, ◌<◌, length, map, IfOk};
ghost use Rattle.wx_base.specs.Machine.{IsShape};
ghost use Rattle.cache_flow.specs.Flows.{IsFlow};
ghost use Rattle.cache_sets.specs.Sets.{IsSetFlow, is_in_set, of_set};

use cache_flow::{Accesses, Flow, Lines, Moves};
use std::alloc::Global;
use wx_base::{NoMemory, Shape};

/// Whether a line belongs to a set.
fn is_in_set(shape: Shape, set: u32, line: u32) -> bool
    requires { IsShape shape }
    ensures { result ≡ is_in_set shape set line }
{
    line % shape.sets == set
}

/// Those of some lines that belong to a set, in their order.
fn of_set(alloc: Global, shape: Shape, set: u32, lines: &[u32]) -> Result<Vec<u32>, NoMemory>
    requires { IsShape shape }
    ensures { IfOk result (λ kept. kept.items ≡ of_set shape set lines.now) }
{
    let mut kept = Vec::new(alloc);
    for line in lines {
        if is_in_set(shape, set, *line) {
            kept.push(*line)?;
        }
    }
    Ok(kept)
}

/// The accesses of each node that go to a set.
fn nodes_of_set(alloc: Global, shape: Shape, flow: &Flow, set: u32) -> Result<Vec<Lines>, NoMemory>
    requires { IsShape shape }
    ensures { IfOk result (λ nodes. nodes.items ≡ map (of_set shape set) flow.now.nodes) }
{
    let mut nodes = Vec::with_capacity(alloc, flow.nodes.len())?;
    for accesses in flow.nodes.as_slice() {
        let kept = of_set(alloc, shape, set, accesses.as_slice())?;
        nodes.push(Lines::new(kept))?;
    }
    Ok(nodes)
}

/// What a program does to one set of a cache: of each access only whether it goes to the set. Linear in the flow.
pub fn set_flow(alloc: Global, shape: Shape, flow: &Flow, set: u32) -> Result<Flow, NoMemory>
    requires shape { IsShape shape }
    requires flow { IsFlow flow.now }
    ensures of { IfOk result (IsSetFlow shape set flow.now) }
    ensures flow { IfOk result IsFlow }
{
    let nodes = nodes_of_set(alloc, shape, flow, set)?;
    let moves = Vec::from_slice(alloc, flow.moves.as_slice())?;
    let lines = of_set(alloc, shape, set, flow.lines.as_slice())?;
    Ok(Flow {
        start: flow.start,
        nodes: Accesses::new(nodes),
        moves: Moves::new(moves),
        lines: Lines::new(lines),
    })
}
