//! What the nodes of an unfolding do to the instruction cache.

ghost use Rattle.std.specs.Prelude.{◌≡◌, ◌≤◌, ◌⊎◌, ◌↔◌, ℕ, length, map, Any, Contains, IfOk, OnOk};
ghost use Rattle.std.specs.BTreeSet.{IsOrdered};
ghost use Rattle.std.specs.Ordering.{nat_cmp};
ghost use Rattle.wx_base.specs.Facts.{AreAscending};
ghost use Rattle.flow_ctx.specs.Unfolding.{IsUnfolding, most_nodes};
ghost use Rattle.cache_class.specs.Accesses.{slots_of, fetched, lines_fetched, move_along, IsFlowOf};

use crate::lookup::slots_at;
use cache_flow::{Accesses, Flow, Lines, Move, Moves};
use flow_block::{Slot, SlotKind};
use flow_ctx::{Edge, Unfolded};
use std::alloc::{AllocError, Global};
use std::collections::BTreeSet;
use wx_text::NoMemory;

/// The line that an event fetches, if it is a fetch.
pub(crate) fn fetched(slot: &Slot) -> Option<u32>
    ensures { result ≡ fetched slot.now }
{
    match slot.kind {
        SlotKind::Fetch { line } => Some(line),
        SlotKind::Multiply | SlotKind::Data => None,
    }
}

/// The lines that events fetch.
fn lines_fetched(alloc: Global, slots: &[Slot]) -> Result<Vec<u32>, AllocError>
    ensures { IfOk result (λ lines. lines.items ≡ lines_fetched slots.now) }
{
    slots.iter().filter_map(|slot| fetched(slot)).collect(alloc)
}

/// The lines that each node's block fetches.
fn accesses(alloc: Global, u: &Unfolded) -> Result<Vec<Lines>, NoMemory>
    requires unfolding { IsUnfolding u.now.program u.now }
    requires few { length u.now.nodes ≤ most_nodes }
    ensures { IfOk result (λ nodes. nodes.items
        ≡ map (λ node. lines_fetched (slots_of u.now.program node)) u.now.nodes) }
{
    let mut nodes = Vec::with_capacity(alloc, u.nodes.len())?;
    for node in 0..u.nodes.len() {
        let lines = lines_fetched(alloc, slots_at(u, node as u32))?;
        nodes.push(Lines::new(lines))?;
    }
    Ok(nodes)
}

/// The edges as moves.
fn moves(alloc: Global, edges: &[Edge]) -> Result<Vec<Move>, AllocError>
    ensures { IfOk result (λ moves. moves.items ≡ map move_along edges.now) }
{
    edges
        .iter()
        .map(|edge| Move {
            from: edge.from,
            to: edge.to,
        })
        .collect(alloc)
}

/// Adds lines to a set.
fn add_lines(set: &mut BTreeSet<u32>, lines: &[u32]) -> Result<(), NoMemory>
    ensures { OnOk result ((line : ℕ) → Contains set.new.keys line
        ↔ (Contains set.old.keys line ⊎ Contains lines.now line)) }
{
    for line in lines {
        set.insert(*line)?;
    }
    Ok(())
}

/// The lines of all nodes, ascending.
fn all_lines(alloc: Global, nodes: &[Lines]) -> Result<Vec<u32>, NoMemory>
    ensures ascending { IfOk result (λ lines. AreAscending lines.items) }
    ensures exact { IfOk result (λ lines. (line : ℕ) → Contains lines.items line
        ↔ Any (λ accesses. Contains accesses line) nodes.now) }
{
    let mut set = BTreeSet::new(alloc);
    for accesses in nodes {
        add_lines(&mut set, accesses.as_slice())?;
    }
    let lines = in_order(alloc, &set)?;
    Ok(lines)
}

/// The lines of a set, in order.
fn in_order(alloc: Global, set: &BTreeSet<u32>) -> Result<Vec<u32>, AllocError>
    ensures all { IfOk result (λ lines. lines.items ≡ set.now.keys) }
    ensures ordered { IsOrdered nat_cmp set.now }
{
    set.iter().copied().collect(alloc)
}

/// The flow of an unfolding.
///
/// Takes time in its nodes and edges, and in their fetches by the logarithm of the number of lines.
pub(crate) fn flow_of(alloc: Global, u: &Unfolded) -> Result<Flow, NoMemory>
    requires unfolding { IsUnfolding u.now.program u.now }
    requires few { length u.now.nodes ≤ most_nodes }
    ensures { IfOk result (IsFlowOf u.now) }
{
    let nodes = accesses(alloc, u)?;
    let moves = moves(alloc, u.edges.as_slice())?;
    let lines = all_lines(alloc, nodes.as_slice())?;
    Ok(Flow {
        start: u.start,
        nodes: Accesses::new(nodes),
        moves: Moves::new(moves),
        lines: Lines::new(lines),
    })
}
