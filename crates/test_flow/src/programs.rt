//! Ways of instructions, and programs of images.

ghost use Rattle.std.specs.Prelude.{IfOk};
ghost use Rattle.wx_base.specs.Facts.{FactsAscend};
ghost use Rattle.wx_base.specs.Machine.{IsMachine};
ghost use Rattle.flow_ctx.specs.Laws.{IsBuilt, IsBuiltOn};

use crate::images::image_of;
use crate::parts::{pair, word};
use anyhow::{Context, Result};
use arm_code::decode;
use ffx_facts::read_facts;
use flow_graph::{Block, FlowError, Function, LoopInfo, Program, Slot, SlotKind, build, ways};
use std::alloc::Global;
use std::fmt::Write;
use wx_base::{Facts, Machine};

/// The facts of a text, without symbols.
fn facts_of(alloc: Global, text: &str) -> Result<Facts>
    ensures { IfOk result FactsAscend }
{
    Ok(read_facts(alloc, text.as_bytes(), &[])?)
}

/// Appends the ways of a word at an address with facts.
pub fn push_ways(alloc: Global, out: &mut String, case: &str) -> Result<()> {
    let (place, facts) = pair(case, " | ")?;
    let (digits, address) = pair(place, " at ")?;
    let insn = decode(word(digits)?).context("an instruction is wanted")?;
    let facts = facts_of(alloc, facts)?;
    let list = ways(alloc, &insn, word(address)?, &facts)?;
    push_addresses(out, "", list.as_slice())
}

/// The program of a case on a machine: where runs start, the segments, and the facts.
pub fn program_of(
    alloc: Global,
    case: &str,
    machine: &Machine,
) -> Result<Result<Program, FlowError>>
    requires { IsMachine machine.now }
    ensures built { IfOk result (λ outcome. IfOk outcome IsBuilt) }
    ensures on { IfOk result (λ outcome. IfOk outcome (IsBuiltOn machine.now)) }
{
    let (start, parts) = pair(case, " | ")?;
    let (segments, facts) = pair(parts, " | ")?;
    let image = image_of(alloc, segments)?;
    let facts = facts_of(alloc, facts)?;
    Ok(build(alloc, &image, &facts, word(start)?, machine))
}

/// Appends the functions of a case's program, or why there is none.
pub fn push_program(alloc: Global, out: &mut String, case: &str) -> Result<()> {
    match program_of(alloc, case, &Machine::m1(alloc))? {
        Ok(program) => push_functions(out, &program),
        Err(refusal) => push_refusal(out, refusal),
    }
}

/// Appends how much a case's program has, or why there is none.
pub fn push_counts(alloc: Global, out: &mut String, case: &str) -> Result<()> {
    match program_of(alloc, case, &Machine::m1(alloc))? {
        Ok(program) => push_sizes(out, &program),
        Err(refusal) => push_refusal(out, refusal),
    }
}

/// Appends why there is no program.
pub fn push_refusal(out: &mut String, refusal: FlowError) -> Result<()> {
    write!(out, " {refusal}")?;
    Ok(())
}

fn push_functions(out: &mut String, program: &Program) -> Result<()> {
    let start = program.start;
    write!(out, " start {start:08x}")?;
    for function in program.functions.as_slice() {
        push_function(out, function)?;
    }
    Ok(())
}

fn push_sizes(out: &mut String, program: &Program) -> Result<()> {
    for function in program.functions.as_slice() {
        let (blocks, loops) = (
            function.blocks.as_slice().len(),
            function.loops.as_slice().len(),
        );
        write!(out, " {blocks} blocks {loops} loops")?;
    }
    Ok(())
}

fn push_function(out: &mut String, function: &Function) -> Result<()> {
    let entry = function.entry;
    write!(out, "\n  function {entry:08x}")?;
    for block in function.blocks.as_slice() {
        push_block(out, block)?;
    }
    for info in function.loops.as_slice() {
        push_loop(out, info)?;
    }
    Ok(())
}

fn push_block(out: &mut String, block: &Block) -> Result<()> {
    let (start, insns) = (block.start, block.insns.as_slice().len());
    write!(out, "\n    block {start:08x} of {insns}")?;
    if let Some(next) = block.next {
        write!(out, " next {next:08x}")?;
    }
    push_addresses(out, " jumps", block.jumps.as_slice())?;
    push_addresses(out, " calls", block.calls.as_slice())?;
    if block.ret {
        write!(out, " returns")?;
    }
    for slot in block.slots.as_slice() {
        push_slot(out, slot)?;
    }
    Ok(())
}

fn push_slot(out: &mut String, slot: &Slot) -> Result<()> {
    let at = slot.at;
    match slot.kind {
        SlotKind::Fetch { line } => write!(out, " {at}:fetch-{line:x}")?,
        SlotKind::Multiply => write!(out, " {at}:multiply")?,
        SlotKind::Data => write!(out, " {at}:data")?,
    }
    Ok(())
}

fn push_loop(out: &mut String, info: &LoopInfo) -> Result<()> {
    let (head, maxcount) = (info.head, info.maxcount);
    write!(out, "\n    loop {head:08x} maxcount {maxcount}")?;
    if let Some(totalcount) = info.totalcount {
        write!(out, " totalcount {totalcount}")?;
    }
    push_addresses(out, " members", info.members.as_slice())
}

/// Appends a word and addresses, if there are any.
fn push_addresses(out: &mut String, word: &str, addresses: &[u32]) -> Result<()> {
    if !addresses.is_empty() {
        out.push_str(word)?;
    }
    for address in addresses {
        write!(out, " {address:08x}")?;
    }
    Ok(())
}
