ghost use Rattle.std.specs.Prelude.{◌≡◌, ◌<◌, ℕ, true, length, Contains, IfOk};
ghost use Rattle.cache_flow.specs.Flows.{IsFlow};
ghost use Rattle.cache_kept.specs.Parts.{AreInside, IsCycle, IsStretch};
ghost use Rattle.cache_kept.specs.Walk.{AreNodes, is_marked};
ghost use Rattle.cache_kept.specs.Ways.{AreWays};

use crate::walk::spread;
use crate::ways::Ways;
use cache_flow::Flow;
use std::alloc::Global;
use wx_text::NoMemory;

/// A part of a flow, ready for searches.
#[derive(Drop)]
pub struct Stretch<'a> {
    /// The numbers of its nodes.
    pub(crate) members: &'a [u32],
    /// For each node of the flow whether it is one of them.
    pub(crate) inside: Vec<bool>,
    /// Whether moves between its nodes lead from each to each.
    pub(crate) is_cycle: bool,
}

impl<'a> Stretch<'a> {
    /// The part with these nodes, which is entered at the head. Linear in the flow's nodes and these nodes' moves.
    pub fn new(
        alloc: Global,
        flow: &Flow,
        ways: &Ways,
        head: u32,
        members: &'a [u32],
    ) -> Result<Stretch<'a>, NoMemory>
        requires flow { IsFlow flow.now }
        requires ways { AreWays (length flow.now.nodes) flow.now.moves ways.now }
        requires members { AreNodes (length flow.now.nodes) members.now }
        requires head { head < length flow.now.nodes }
        ensures members { IfOk result (λ stretch. stretch.members.now ≡ members.now) }
        ensures is { IfOk result (IsStretch (length flow.now.nodes) flow.now.moves) }
    {
        let inside = marks_of(alloc, flow.nodes.len(), members)?;
        let is_cycle = is_cycle(alloc, flow, ways, members, inside.as_slice(), head)?;
        Ok(Stretch {
            members,
            inside,
            is_cycle,
        })
    }
}

/// Nodes as marks.
fn marks_of(alloc: Global, count: usize, members: &[u32]) -> Result<Vec<bool>, NoMemory>
    requires { AreNodes count members.now }
    ensures { IfOk result (λ marks. AreInside count members.now marks.items) }
{
    let mut marks = vec![in alloc; false; count]?;
    for node in members {
        marks[*node as usize] = true;
    }
    Ok(marks)
}

/// Whether moves between members lead from the head to each of them, itself too, and from each to the head.
fn is_cycle(
    alloc: Global,
    flow: &Flow,
    ways: &Ways,
    members: &[u32],
    inside: &[bool],
    head: u32,
) -> Result<bool, NoMemory>
    requires flow { IsFlow flow.now }
    requires ways { AreWays (length flow.now.nodes) flow.now.moves ways.now }
    requires inside { AreInside (length flow.now.nodes) members.now inside.now }
    requires members { AreNodes (length flow.now.nodes) members.now }
    requires head { head < length flow.now.nodes }
    ensures { IfOk result (λ cycle. cycle ≡ true → IsCycle flow.now.moves members.now) }
{
    let first = ways.targets[head as usize].as_slice();
    let ahead = spread(alloc, ways.targets.as_slice(), inside, first)?;
    let back = spread(alloc, ways.sources.as_slice(), inside, &[head])?;
    if !are_marked(members, ahead.as_slice()) {
        return Ok(false);
    }
    let is_back = are_marked(members, back.as_slice());
    Ok(is_back)
}

/// Whether each of some nodes is marked.
fn are_marked(nodes: &[u32], marks: &[bool]) -> bool
    requires { AreNodes (length marks.now) nodes.now }
    ensures { result ≡ true → (node : ℕ) → Contains nodes.now node → is_marked marks.now node ≡ true }
{
    for node in nodes {
        if !marks[*node as usize] {
            return false;
        }
    }
    true
}
