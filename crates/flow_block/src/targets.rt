//! Where an instruction jumps to and what it calls.

ghost use Rattle.std.specs.Prelude.{◌≡◌, ◌++◌, [], if◌then◌else◌, IfOk, option_to_list};
ghost use Rattle.wx_base.specs.Facts.{FactsAscend, TargetsAscend, targets_of};
ghost use Rattle.wx_base.specs.Functions.{callees_by};
ghost use Rattle.wx_base.specs.Monitor.{is_call};
ghost use Rattle.flow_block.specs.Sites.{jumps_by};

use crate::lookup::listed_targets;
use std::alloc::Global;
use wx_base::{Facts, FlowKind, NoMemory, TargetFacts};

/// Whether an instruction that is this to the flow may call a function.
pub fn is_call(flow: FlowKind) -> bool
    ensures { result ≡ is_call flow }
{
    flow.call.is_some() || flow.call_any
}

/// Where an instruction that is this to the flow may jump to, ascending: the target of a direct jump, and those that
/// the facts list for an indirect one. The only error is want of memory.
pub fn jumps(
    alloc: Global,
    flow: FlowKind,
    address: u32,
    facts: &Facts,
) -> Result<Vec<u32>, NoMemory>
    requires { FactsAscend facts.now }
    ensures { IfOk result (λ list. list.items ≡ jumps_by facts.now address flow) }
{
    targets(alloc, flow.jump, flow.indirect, &facts.branches, address)
}

/// The functions that an instruction that is this to the flow may call, ascending: the target of a direct call, and
/// those that the facts list for a call by register. The only error is want of memory.
pub fn callees(
    alloc: Global,
    flow: FlowKind,
    address: u32,
    facts: &Facts,
) -> Result<Vec<u32>, NoMemory>
    requires { FactsAscend facts.now }
    ensures { IfOk result (λ list. list.items ≡ callees_by facts.now address flow) }
{
    targets(alloc, flow.call, flow.call_any, &facts.calls, address)
}

/// A target that the instruction itself names, and those that facts list if it leaves them to them.
fn targets(
    alloc: Global,
    direct: Option<u32>,
    by_facts: bool,
    facts: &TargetFacts,
    address: u32,
) -> Result<Vec<u32>, NoMemory>
    requires { TargetsAscend facts.now }
    ensures { IfOk result (λ list. list.items
        ≡ option_to_list direct ++ (if by_facts then targets_of facts.now address else [])) }
{
    let mut list = Vec::new(alloc);
    if let Some(target) = direct {
        list.push(target)?;
    }
    if by_facts {
        list.extend_from_slice(listed_targets(facts, address))?;
    }
    Ok(list)
}
