ghost use Rattle.std.specs.Prelude.{◌≡◌, ◌<◌, ℕ, true, length, All, IfOk, slice_get, Some};
ghost use Rattle.wx_base.specs.Machine.{IsShape};
ghost use Rattle.wx_base.specs.CacheStates.{must_hold, may_hold};
ghost use Rattle.cache_ages.specs.Bounds.{is_one_of, must_ages, may_ages};
ghost use Rattle.cache_flow.specs.Flows.{IsFlow, accesses_of};
ghost use Rattle.cache_flow.specs.Solutions.{must_along, may_along};
ghost use Rattle.cache_sets.specs.Verdicts.{AreVerdicts, AreVerdictsOf, verdict_of};

use cache_ages::{May, Must};
use cache_flow::{Flow, least_solutions_show};
use cache_solve::{may_behind, may_states, must_behind, must_states};
use std::alloc::Global;
use wx_base::{NoMemory, Shape};
use wx_text::List;

/// What is known of a line where it is accessed.
#[derive(Clone, Copy, Debug, PartialEq, Eq)]
pub enum Verdict {
    /// It is in the cache for sure.
    Held,
    /// It cannot be there.
    Barred,
    /// Neither is known.
    Unsure,
}

/// Verdicts for the accesses of a node, in their order: contracts see the list.
pub type NodeVerdicts = List<Verdict>;

/// The verdict on a line behind some accesses of a node.
fn judge(
    alloc: Global,
    must: &Must,
    may: &May,
    before: &[u32],
    line: u32,
) -> Result<Verdict, NoMemory>
    requires must { All (λ line. is_one_of must.now.lines line ≡ true) before.now }
    requires may { All (λ line. is_one_of may.now.lines line ≡ true) before.now }
    requires line { is_one_of must.now.lines line ≡ true }
    requires too { is_one_of may.now.lines line ≡ true }
    ensures { IfOk result (λ verdict. verdict ≡ verdict_of
        (must_hold must.now.shape (must_along must.now.shape (must_ages must.now) before.now) line)
        (may_hold may.now.shape (may_along may.now.shape (may_ages may.now) before.now) line)) }
{
    if must_behind(alloc, must, before)?.must_hold(line) {
        return Ok(Verdict::Held);
    }
    if may_behind(alloc, may, before)?.may_hold(line) {
        return Ok(Verdict::Unsure);
    }
    Ok(Verdict::Barred)
}

/// The verdicts on all accesses of a node.
fn node_verdicts(
    alloc: Global,
    must: &Must,
    may: &May,
    accesses: &[u32],
) -> Result<Vec<Verdict>, NoMemory>
    requires must { All (λ line. is_one_of must.now.lines line ≡ true) accesses.now }
    requires may { All (λ line. is_one_of may.now.lines line ≡ true) accesses.now }
    ensures { IfOk result (λ verdicts. AreVerdictsOf must.now may.now accesses.now verdicts.items) }
{
    let mut verdicts = Vec::with_capacity(alloc, accesses.len())?;
    for place in 0..accesses.len() {
        let verdict = judge(alloc, must, may, &accesses[..place], accesses[place])?;
        verdicts.push(verdict)?;
    }
    Ok(verdicts)
}

/// What is known of each line where a node accesses it, node by node. It takes the solvers' time, and for each node the
/// square of its accesses.
pub fn verdicts(alloc: Global, shape: Shape, flow: &Flow) -> Result<Vec<NodeVerdicts>, NoMemory>
    requires shape { IsShape shape }
    requires flow { IsFlow flow.now }
    ensures { IfOk result (λ verdicts. AreVerdicts shape flow.now verdicts.items) }
{
    least_solutions_show();
    let must = must_states(alloc, shape, flow)?;
    let may = may_states(alloc, shape, flow)?;
    let mut verdicts = Vec::with_capacity(alloc, flow.nodes.len())?;
    for node in 0..flow.nodes.len() {
        let accesses = flow.nodes.as_slice()[node].as_slice();
        let told = node_verdicts(alloc, &must[node], &may[node], accesses)?;
        verdicts.push(NodeVerdicts::new(told))?;
    }
    Ok(verdicts)
}
