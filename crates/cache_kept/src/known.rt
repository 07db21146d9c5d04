//! Where a line may be known in a stay in a part.

ghost use Rattle.std.specs.Prelude.{◌≡◌, ◌+◌, ◌<◌, length, IfOk, OnOk};
ghost use Rattle.wx_base.specs.declared.machine.Shape.{Shape as Form};
ghost use Rattle.cache_flow.specs.Flows.{Part, IsFlow};
ghost use Rattle.cache_kept.specs.Parts.{IsClosed, IsStretch, IsSure};
ghost use Rattle.cache_kept.specs.Roots.{AreRoots};
ghost use Rattle.cache_kept.specs.Ways.{AreWays};

use crate::stretch::Stretch;
use crate::walk::spread;
use crate::ways::Ways;
use cache_flow::Flow;
use std::alloc::Global;
use wx_text::NoMemory;

/// The targets of the moves from the nodes of a part that access a line.
fn roots_of(
    alloc: Global,
    flow: &Flow,
    ways: &Ways,
    stretch: &Stretch,
    line: u32,
) -> Result<Vec<u32>, NoMemory>
    requires flow { IsFlow flow.now }
    requires ways { AreWays (length flow.now.nodes) flow.now.moves ways.now }
    requires stretch { IsStretch (length flow.now.nodes) flow.now.moves stretch.now }
    ensures { IfOk result (λ roots.
        AreRoots flow.now stretch.now.members.now line (length flow.now.nodes) roots.items) }
{
    let mut roots = Vec::new(alloc);
    for node in 0..flow.nodes.len() {
        add_roots(&mut roots, flow, ways, stretch, line, node)?;
    }
    Ok(roots)
}

/// Adds the targets of the moves from a node, if it is in the part and accesses the line.
fn add_roots(
    roots: &mut Vec<u32>,
    flow: &Flow,
    ways: &Ways,
    stretch: &Stretch,
    line: u32,
    node: usize,
) -> Result<(), NoMemory>
    requires ways { AreWays (length flow.now.nodes) flow.now.moves ways.now }
    requires stretch { IsStretch (length flow.now.nodes) flow.now.moves stretch.now }
    requires node { node < length flow.now.nodes }
    requires roots { AreRoots flow.now stretch.now.members.now line node roots.old.items }
    ensures { OnOk result (AreRoots flow.now stretch.now.members.now line (node + 1) roots.new.items) }
{
    if !stretch.inside[node] {
        return Ok(());
    }
    if !flow.nodes.as_slice()[node].as_slice().contains(&line) {
        return Ok(());
    }
    roots.extend_from_slice(ways.targets[node].as_slice())?;
    Ok(())
}

/// The nodes of a part, as marks, at whose begin a line is known in some stay.
pub(crate) fn known(
    alloc: Global,
    flow: &Flow,
    ways: &Ways,
    stretch: &Stretch,
    line: u32,
) -> Result<Vec<bool>, NoMemory>
    requires flow { IsFlow flow.now }
    requires ways { AreWays (length flow.now.nodes) flow.now.moves ways.now }
    requires stretch { IsStretch (length flow.now.nodes) flow.now.moves stretch.now }
    ensures closed { IfOk result (λ marks. IsClosed flow.now stretch.now.members.now line marks.items) }
    ensures sure { IfOk result (λ marks. (shape : Form) (part : Part) → part.members ≡ stretch.now.members.now
        → IsSure shape flow.now part line marks.items) }
{
    let roots = roots_of(alloc, flow, ways, stretch, line)?;
    let marks = spread(
        alloc,
        ways.targets.as_slice(),
        stretch.inside.as_slice(),
        roots.as_slice(),
    )?;
    Ok(marks)
}
