//! What is known of the lines of an unfolding.

ghost use Rattle.std.specs.Prelude.{◌≡◌, ◌≤◌, length, IfOk};
ghost use Rattle.std.specs.List.{range_with_len};
ghost use Rattle.wx_base.specs.Machine.{IsShape};
ghost use Rattle.cache_flow.specs.Flows.{IsFlow};
ghost use Rattle.cache_kept.specs.Ways.{AreWays};
ghost use Rattle.flow_ctx.specs.declared.scope.Scope.TheVariants as scope;
ghost use Rattle.flow_ctx.specs.Unfolding.{IsUnfolding, most_nodes};
ghost use Rattle.cache_class.specs.Accesses.{IsFlowOf};
ghost use Rattle.cache_class.specs.Tables.{AreReady, AreTables, IsReady};

use crate::chains::chains_of;
use crate::flows::flow_of;
use crate::laws::unfoldings_flow;
use crate::sets::set_tables;
use crate::tables::Tables;
use cache_flow::Flow;
use cache_kept::{Stretch, Ways};
use flow_ctx::Unfolded;
use std::alloc::Global;
use wx_base::Shape;
use wx_text::NoMemory;

/// The numbers below another, ascending.
pub(crate) fn numbers_below(alloc: Global, count: u32) -> Result<Vec<u32>, NoMemory>
    ensures { IfOk result (λ numbers. numbers.items ≡ range_with_len 0 count) }
{
    let mut numbers = Vec::with_capacity(alloc, count as usize)?;
    for number in 0..count {
        numbers.push(number)?;
    }
    Ok(numbers)
}

/// The run, ready for searches. The nodes are those of the unfolding.
fn run_of<'a>(
    alloc: Global,
    u: &Unfolded,
    flow: &Flow,
    ways: &Ways,
    nodes: &'a [u32],
) -> Result<Stretch<'a>, NoMemory>
    requires flow { IsFlow flow.now }
    requires of { IsFlowOf u.now flow.now }
    requires ways { AreWays (length flow.now.nodes) flow.now.moves ways.now }
    requires nodes { nodes.now ≡ range_with_len 0 (length u.now.nodes) }
    ensures { IfOk result (IsReady u.now flow.now scope.Run) }
{
    let run = Stretch::new(alloc, flow, ways, u.start, nodes)?;
    Ok(run)
}

/// All loops, ready for searches.
fn loops_of<'a>(
    alloc: Global,
    u: &'a Unfolded,
    flow: &Flow,
    ways: &Ways,
) -> Result<Vec<Stretch<'a>>, NoMemory>
    requires unfolding { IsUnfolding u.now.program u.now }
    requires flow { IsFlow flow.now }
    requires of { IsFlowOf u.now flow.now }
    requires ways { AreWays (length flow.now.nodes) flow.now.moves ways.now }
    ensures { IfOk result (λ loops. AreReady u.entry.now flow.now (length u.entry.now.loops) loops.items) }
{
    let mut loops = Vec::with_capacity(alloc, u.loops.len())?;
    for l in u.loops.as_slice() {
        loops.push(Stretch::new(alloc, flow, ways, l.head, l.members.as_slice())?)?;
    }
    Ok(loops)
}

/// What is known of the lines of an unfolding, whose nodes these are.
pub(crate) fn tables_of<'a>(
    alloc: Global,
    shape: Shape,
    u: &'a Unfolded,
    nodes: &'a [u32],
) -> Result<Tables<'a>, NoMemory>
    requires shape { IsShape shape }
    requires unfolding { IsUnfolding u.now.program u.now }
    requires few { length u.now.nodes ≤ most_nodes }
    requires nodes { nodes.now ≡ range_with_len 0 (length u.now.nodes) }
    ensures tables { IfOk result AreTables }
    ensures shape { IfOk result (λ tables. tables.shape ≡ shape) }
    ensures of { IfOk result (λ tables. tables.u.now ≡ u.entry.now) }
{
    unfoldings_flow();
    let flow = flow_of(alloc, u)?;
    let sets = set_tables(alloc, shape, &flow)?;
    let ways = Ways::new(alloc, &flow)?;
    let run = run_of(alloc, u, &flow, &ways, nodes)?;
    let loops = loops_of(alloc, u, &flow, &ways)?;
    let chains = chains_of(alloc, u)?;
    Ok(Tables {
        u,
        shape,
        flow,
        sets,
        ways,
        run,
        loops,
        chains,
    })
}
