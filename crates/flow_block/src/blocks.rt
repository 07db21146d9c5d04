//! The blocks of a function.

ghost use Rattle.std.specs.Prelude.{◌≡◌, ◌==◌, ◌&&◌, not, if◌then◌else◌, IfOk};
ghost use Rattle.wx_base.specs.Facts.{FactsAscend};
ghost use Rattle.wx_base.specs.Machine.{IsMachine};
ghost use Rattle.wx_base.specs.Monitor.{is_call};
ghost use Rattle.wx_base.specs.Instruction.{always};
ghost use Rattle.flow_block.specs.Blocks.{Begins, IsBlock, AreBlocks};
ghost use Rattle.flow_block.specs.Code.{Subject, IsInsn, IsCode, HasCode, AreLeaders};
ghost use Rattle.flow_block.specs.Sites.{behind};
ghost use Rattle.flow_block.specs.Starts.{IsEnding, AllBegin, AreBlocksAt};

use crate::block::{Block, Insns, Slots};
use crate::code::Code;
use crate::growth::Growth;
use crate::targets::{callees, is_call, jumps};
use crate::{leaders, starts};
use arm_code::{ALWAYS, Insn, flow};
use std::alloc::Global;
use wx_base::{Addresses, Facts, FlowKind, Machine, NoMemory};

/// What the last instruction of a block leads to, as in [`crate::Block`].
#[derive(Drop)]
pub(crate) struct Ending {
    next: Option<u32>,
    jumps: Addresses,
    calls: Addresses,
    ret: bool,
}

/// Whether the run may go on behind an instruction without a call between.
fn goes_past(insn: &Insn, flow: FlowKind) -> bool
    ensures { result ≡ (flow.next && not (is_call flow && (insn.now.cond == always))) }
{
    flow.next && !(is_call(flow) && insn.cond == ALWAYS)
}

/// The address behind an instruction, if the run may go on there without a call between.
fn next_of(insn: &Insn, flow: FlowKind, address: u32) -> Option<u32>
    ensures { result ≡ (if flow.next && not (is_call flow && (insn.now.cond == always))
        then Some (behind address 1) else None) }
{
    if goes_past(insn, flow) {
        Some(address.wrapping_add(4))
    } else {
        None
    }
}

/// What an instruction leads to as the last of a block.
fn ending_of(alloc: Global, insn: &Insn, address: u32, facts: &Facts) -> Result<Ending, NoMemory>
    ghost of: { Subject }
    requires here { IsInsn of.image address insn.now }
    requires by_facts { of.facts ≡ facts.now }
    requires ascend { FactsAscend facts.now }
    ensures { IfOk result (λ ending. IsEnding of address ending) }
{
    let flow = flow(insn, address);
    let jumps = jumps(alloc, flow, address, facts)?;
    let calls = callees(alloc, flow, address, facts)?;
    let next = next_of(insn, flow, address);
    Ok(Ending {
        next,
        jumps: Addresses::new(jumps),
        calls: Addresses::new(calls),
        ret: flow.ret,
    })
}

/// The block that begins at an address.
fn block(
    alloc: Global,
    code: &Code,
    leaders: &[bool],
    facts: &Facts,
    machine: &Machine,
    start: u32,
) -> Result<Block, NoMemory>
    ghost of: { Subject }
    requires code { HasCode of code.now.addresses.now code.now.insns.now }
    requires marks { AreLeaders of code.now.addresses.now leaders.now }
    requires ranges { IsMachine machine.now }
    requires by_facts { of.facts ≡ facts.now }
    requires begins { Begins of.image of.facts machine.now of.entry start }
    requires ascend { FactsAscend facts.now }
    ensures { IfOk result (λ block. (block.start ≡ start) × IsBlock of.image of.facts machine.now of.entry block) }
{
    let Growth {
        insns: list,
        events,
    } = Growth::from(alloc, code, leaders, machine, start)?;
    let before = list.len() - 1;
    let last = start.wrapping_add(4 * before as u32);
    let ending = ending_of(alloc, &list[before], last, facts)?;
    let Ending {
        next,
        jumps,
        calls,
        ret,
    } = ending;
    Ok(Block {
        start,
        insns: Insns::new(list),
        slots: Slots::new(events),
        next,
        jumps,
        calls,
        ret,
    })
}

/// The blocks that begin at some addresses.
fn blocks_at(
    alloc: Global,
    code: &Code,
    leaders: &[bool],
    facts: &Facts,
    machine: &Machine,
    starts: &[u32],
) -> Result<Vec<Block>, NoMemory>
    ghost of: { Subject }
    requires code { HasCode of code.now.addresses.now code.now.insns.now }
    requires marks { AreLeaders of code.now.addresses.now leaders.now }
    requires ranges { IsMachine machine.now }
    requires by_facts { of.facts ≡ facts.now }
    requires begin { AllBegin of machine.now starts.now }
    requires ascend { FactsAscend facts.now }
    ensures { IfOk result (λ blocks. AreBlocksAt of machine.now starts.now blocks.items) }
{
    let mut blocks = Vec::new(alloc);
    for start in starts {
        blocks.push(block(alloc, code, leaders, facts, machine, *start)?)?;
    }
    Ok(blocks)
}

/// The blocks of the function at an entry, ascending by their starts. The code has its instructions and perhaps
/// others, and `body` marks those of the function. The only error is want of memory. Each block is looked for twice,
/// with a logarithmic look-up for each of its instructions.
pub fn blocks_of(
    alloc: Global,
    code: &Code,
    body: &[bool],
    facts: &Facts,
    machine: &Machine,
    entry: u32,
) -> Result<Vec<Block>, NoMemory>
    ghost of: { Subject }
    requires code { IsCode of code.now.addresses.now code.now.insns.now body.now }
    requires ranges { IsMachine machine.now }
    requires by_facts { of.facts ≡ facts.now }
    requires at { of.entry ≡ entry }
    requires ascend { FactsAscend facts.now }
    ensures { IfOk result (λ blocks. AreBlocks of.image facts.now machine.now entry blocks.items) }
{
    let leaders = leaders::leaders(alloc, code, body, facts, entry)?;
    let marks = starts::starts(alloc, code, &leaders, machine)?;
    let starts = starts::marked_addresses(alloc, code, &marks)?;
    blocks_at(alloc, code, &leaders, facts, machine, &starts)
}
