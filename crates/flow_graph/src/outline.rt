//! The loops of each function, by numbers.

ghost use Rattle.std.specs.Prelude.{◌≡◌, ◌<◌, All, Any, Some, None, length, slice_index, IfOk};
ghost use Rattle.wx_base.specs.Facts.{LoopsAscend};
ghost use Rattle.wx_base.specs.Functions.{fact_of};
ghost use Rattle.flow_graph.specs.Listing.{IsLeast};
ghost use Rattle.flow_graph.specs.Outlines.{AreOutlines, IsUnboundedNumber};

use crate::entries::lesser;
use flow_block::loop_fact;
use graph_loops::{Graph, Loop, Structure, structure_of};
use std::alloc::Global;
use wx_base::{Facts, NoMemory};

/// A function by numbers: its entry, its loops, and the least instruction on a cycle of ways that are no back edges.
#[derive(Debug, Drop)]
pub(crate) struct Outline {
    pub entry: usize,
    pub structure: Structure,
}

/// The outlines of the functions that begin at the marked numbers.
pub(crate) fn outlines(
    alloc: Global,
    ways: &Graph,
    entries: &[bool],
) -> Result<Vec<Outline>, NoMemory>
    requires { length entries.now ≡ length ways.now }
    ensures { IfOk result (λ list. AreOutlines ways.now entries.now list.items) }
{
    let mut list = Vec::new(alloc);
    for (entry, is_entry) in entries.iter().enumerate() {
        if *is_entry {
            let structure = structure_of(alloc, ways, entry)?;
            list.push(Outline { entry, structure })?;
        }
    }
    Ok(list)
}

/// The least number on a cycle of ways that are no back edges in some function.
pub(crate) fn least_on_cycle(outlines: &[Outline]) -> Option<usize>
    ensures { IsLeast (λ v. Any (λ o. o.structure.cycle ≡ Some v) outlines.now) result }
{
    let mut least = None;
    for outline in outlines {
        least = lesser(least, outline.structure.cycle);
    }
    least
}

/// The least number of a head without a bound in some function.
pub(crate) fn least_unbounded(
    facts: &Facts,
    addresses: &[u32],
    outlines: &[Outline],
) -> Option<usize>
    requires facts { LoopsAscend facts.now.loops }
    requires heads { All (λ o. All (λ l. l.head < length addresses.now) o.structure.loops) outlines.now }
    ensures { IsLeast (IsUnboundedNumber facts.now addresses.now outlines.now) result }
{
    let mut least = None;
    for outline in outlines {
        least = lesser(
            least,
            first_unbounded(facts, addresses, outline.structure.loops.as_slice()),
        );
    }
    least
}

/// The least head of some loops, which are ascending, without a bound.
fn first_unbounded(facts: &Facts, addresses: &[u32], loops: &[Loop]) -> Option<usize>
    requires facts { LoopsAscend facts.now.loops }
    requires heads { All (λ l. l.head < length addresses.now) loops.now }
    ensures { IsLeast (λ v. Any (λ l. l.head ≡ v) loops.now
        × (fact_of facts.now (slice_index addresses.now v) ≡ None)) result }
{
    let mut least = None;
    for found in loops {
        if loop_fact(facts, addresses[found.head]).is_none() {
            least = lesser(least, Some(found.head));
        }
    }
    least
}
