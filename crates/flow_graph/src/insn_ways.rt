//! Where an instruction may lead in its function.

ghost use Rattle.std.specs.Prelude.{◌≡◌, ◌∷◌, ◌++◌, [], if◌then◌else◌, option_to_list, OnOk, IfOk};
ghost use Rattle.wx_base.specs.Bits.{add_words};
ghost use Rattle.wx_base.specs.Facts.{AreAscending, FactsAscend, targets_of};
ghost use Rattle.wx_base.specs.Ways.{ways_by, ways_of};
ghost use Rattle.arm_code.specs.Encoding.{IsValid, word_of};
ghost use Rattle.flow_graph.specs.Reached.{IsSetOf};

use arm_code::{FlowKind, Insn, flow};
use flow_block::listed_targets;
use smallvec::SmallVec;
use std::alloc::Global;
use wx_base::{Facts, NoMemory};

/// The targets that the facts list for an instruction, if it is an indirect jump.
fn branch_targets(facts: &Facts, addr: u32, indirect: bool) -> &[u32]
    requires { FactsAscend facts.now }
    ensures { result.now ≡ (if indirect then targets_of facts.now.branches addr else []) }
{
    if indirect {
        listed_targets(&facts.branches, addr)
    } else {
        &[]
    }
}

/// Adds an address to ascending ones, unless it is among them.
fn add(addresses: &mut SmallVec<u32, 4>, addr: u32) -> Result<(), NoMemory>
    requires { AreAscending addresses.old.items }
    ensures { OnOk result (IsSetOf (addr ∷ addresses.old.items) addresses.new.items) }
{
    match addresses.as_slice().binary_search(&addr) {
        Ok(_) => Ok(()),
        Err(at) => Ok(addresses.insert(at, addr)?),
    }
}

/// The same for an address that there may be.
fn add_some(addresses: &mut SmallVec<u32, 4>, addr: Option<u32>) -> Result<(), NoMemory>
    requires { AreAscending addresses.old.items }
    ensures { OnOk result (IsSetOf (option_to_list addr ++ addresses.old.items) addresses.new.items) }
{
    match addr {
        Some(addr) => add(addresses, addr),
        None => Ok(()),
    }
}

/// The address behind an instruction, if it may go on there.
fn next_of(flow: FlowKind, addr: u32) -> Option<u32>
    ensures { option_to_list result ≡ (if flow.next then add_words addr 4 ∷ [] else []) }
{
    if flow.next {
        Some(addr.wrapping_add(4))
    } else {
        None
    }
}

/// The ways of an instruction that is this to the flow.
pub(crate) fn ways_by(
    alloc: Global,
    flow: FlowKind,
    addr: u32,
    facts: &Facts,
) -> Result<SmallVec<u32, 4>, NoMemory>
    requires { FactsAscend facts.now }
    ensures { IfOk result (λ w. IsSetOf (ways_by facts.now addr flow) w.items) }
{
    let mut ways = SmallVec::from_slice(alloc, branch_targets(facts, addr, flow.indirect))?;
    add_some(&mut ways, flow.jump)?;
    add_some(&mut ways, next_of(flow, addr))?;
    Ok(ways)
}

/// The ways of an instruction at an address, where the run may go on in its function, ascending and each once: the
/// address behind it, the target of a direct jump, and the targets that the facts list for an indirect one.
///
/// The only error is want of memory.
pub fn ways(
    alloc: Global,
    insn: &Insn,
    addr: u32,
    facts: &Facts,
) -> Result<SmallVec<u32, 4>, NoMemory>
    requires valid { IsValid insn.now }
    requires facts { FactsAscend facts.now }
    ensures { IfOk result (λ w. IsSetOf (ways_of facts.now (word_of insn.now) addr) w.items) }
{
    ways_by(alloc, flow(insn, addr), addr, facts)
}
