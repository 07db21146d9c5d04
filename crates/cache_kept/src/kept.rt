ghost use Rattle.std.specs.Prelude.{◌≡◌, ◌<◌, ◌≤◌, true, false, slice_index, Contains, length, IfOk};
ghost use Rattle.std.specs.Bool.{Decides};
ghost use Rattle.wx_base.specs.Machine.{IsShape};
ghost use Rattle.cache_flow.specs.Flows.{Part, IsFlow, accesses_of};
ghost use Rattle.cache_flow.specs.Shown.{IsKept};
ghost use Rattle.cache_kept.specs.Parts.{IsStretch, IsSure};
ghost use Rattle.cache_kept.specs.Search.{IsLook, part_at};
ghost use Rattle.cache_kept.specs.Ways.{AreWays};

use crate::known::known;
use crate::look::Look;
use crate::search::search;
use crate::stretch::Stretch;
use crate::ways::Ways;
use cache_flow::Flow;
use std::alloc::Global;
use wx_base::{NoMemory, Shape};

/// Whether fewer rivals of the line are held for it at an access than there are ways.
fn are_few(alloc: Global, look: &Look, node: u32, place: usize) -> Result<bool, NoMemory>
    requires shape { IsShape look.now.shape }
    requires look { IsLook look.now }
    requires node { node < length look.now.flow.now.nodes }
    requires member { Contains look.now.members.now node }
    requires place { place ≤ length (accesses_of look.now.flow.now node) }
    ensures few { IfOk result (λ few. few ≡ true
        → IsKept look.now.shape look.now.flow.now (part_at look.now) node place look.now.line) }
    ensures many { IfOk result (λ few. few ≡ false
        → IsSure look.now.shape look.now.flow.now (part_at look.now) look.now.line look.now.known.now
        → IsKept look.now.shape look.now.flow.now (part_at look.now) node place look.now.line → ⊥) }
{
    let found = search(alloc, look, node, place)?;
    Ok(found.len() < look.shape.ways as usize)
}

/// Whether a line is kept, in a stay in a part, where a node of the part accesses it.
///
/// Takes time in the nodes between the access and others to the line, or to as many of its rivals as there are ways.
/// Where the line is not kept and moves do not lead from each node of the part to each, it takes time in the whole part.
pub fn is_kept(
    alloc: Global,
    shape: Shape,
    flow: &Flow,
    ways: &Ways,
    stretch: &Stretch,
    node: u32,
    place: usize,
) -> Result<bool, NoMemory>
    requires shape { IsShape shape }
    requires flow { IsFlow flow.now }
    requires ways { AreWays (length flow.now.nodes) flow.now.moves ways.now }
    requires stretch { IsStretch (length flow.now.nodes) flow.now.moves stretch.now }
    requires member { Contains stretch.now.members.now node }
    requires place { place < length (accesses_of flow.now node) }
    ensures { IfOk result (λ kept. (part : Part) → part.members ≡ stretch.now.members.now
        → Decides kept (IsKept shape flow.now part node place (slice_index (accesses_of flow.now node) place))) }
{
    let look = Look {
        shape,
        flow,
        sources: ways.sources.as_slice(),
        members: stretch.members,
        inside: stretch.inside.as_slice(),
        known: stretch.inside.as_slice(),
        line: flow.nodes.as_slice()[node as usize].as_slice()[place],
    };
    let few = are_few(alloc, &look, node, place)?;
    if few {
        return Ok(true);
    }
    if stretch.is_cycle {
        return Ok(false);
    }
    let known = known(alloc, flow, ways, stretch, look.line)?;
    let nearer = Look {
        known: known.as_slice(),
        ..look
    };
    let nearer_few = are_few(alloc, &nearer, node, place)?;
    Ok(nearer_few)
}
