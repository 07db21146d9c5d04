//! Blocks from the words of their instructions.

ghost use Rattle.std.specs.Prelude.{◌≡◌, true};
ghost use Rattle.pipe_block.specs.Events.{Ascends, IsTimed};
ghost use Rattle.wx_base.specs.Machine.{IsMachine};

use crate::machines::machine;
use crate::parts::{pair, word};
use anyhow::{Context, Result, ensure};
use arm_code::{Insn, decode, is_valid, unit};
use flow_block::{Block, Insns, Slot, SlotKind, Slots};
use std::alloc::Global;
use wx_base::{Addresses, Machine, UnitKind};

/// Where each block begins.
const START: u32 = 0x8000;

/// Appends the events of a block. The case is the machine and the words, with commas between them.
pub fn push_events(alloc: Global, out: &mut String, case: &str) -> Result<()> {
    let (name, words) = pair(case, ' ')?;
    let machine = machine(alloc, name)?;
    let block = block_of(alloc, words, &machine)?;
    for slot in block.slots.as_slice() {
        let at = slot.at;
        match slot.kind {
            SlotKind::Fetch { line } => write!(out, " {at}:fetch:{line:x}")?,
            SlotKind::Multiply => write!(out, " {at}:multiply")?,
            SlotKind::Data => write!(out, " {at}:data")?,
        }
    }
    Ok(())
}

/// The block of words with commas between them, on a machine.
pub fn block_of(alloc: Global, words: &str, machine: &Machine) -> Result<Block>
    requires { IsMachine machine.now }
{
    let insns = insns_of(alloc, words)?;
    let slots = slots_of(alloc, insns.as_slice(), machine)?;
    Ok(Block {
        start: START,
        insns: Insns::new(insns),
        slots: Slots::new(slots),
        next: None,
        jumps: Addresses::new(Vec::new(alloc)),
        calls: Addresses::new(Vec::new(alloc)),
        ret: false,
    })
}

fn insns_of(alloc: Global, words: &str) -> Result<Vec<Insn>> {
    let mut insns = Vec::new(alloc);
    for text in words.split(',') {
        let insn = decode(word(text)?).context("an instruction is wanted")?;
        insns.push(insn)?;
    }
    Ok(insns)
}

/// The events of instructions: the first fetch of each line, and each use of the multiplier or of the memory.
fn slots_of(alloc: Global, insns: &[Insn], machine: &Machine) -> Result<Vec<Slot>>
    requires { IsMachine machine.now }
{
    let mut slots = Vec::new(alloc);
    let mut address = START;
    let mut before = None;
    for (place, insn) in insns.iter().enumerate() {
        let at = u32::try_from(place)?;
        let line = address / machine.shape.line;
        if before != Some(line) {
            let kind = SlotKind::Fetch { line };
            slots.push(Slot { at, kind })?;
        }
        if let Some(kind) = work(insn)? {
            slots.push(Slot { at, kind })?;
        }
        before = Some(line);
        address = address.wrapping_add(4);
    }
    Ok(slots)
}

/// The event of an instruction's unit.
fn work(insn: &Insn) -> Result<Option<SlotKind>> {
    ensure!(is_valid(insn), "the instruction is not valid");
    Ok(match unit(insn) {
        UnitKind::Alu => None,
        UnitKind::Mul => Some(SlotKind::Multiply),
        UnitKind::Mem => Some(SlotKind::Data),
    })
}

/// Whether a block can be timed.
pub fn is_timed(block: &Block) -> bool
    ensures { result ≡ true → IsTimed block.now }
{
    let insns = block.insns.as_slice();
    let slots = block.slots.as_slice();
    !insns.is_empty()
        && insns.len() <= 32
        && slots.len() <= 12
        && insns.iter().all(|insn| is_valid(insn))
        && ascend(0, slots)
}

/// Whether events stand in the order of their instructions, none before a place.
fn ascend(place: u32, slots: &[Slot]) -> bool
    ensures { result ≡ true → Ascends place slots.now }
{
    match slots {
        [] => true,
        [first, rest @ ..] => place <= first.at && ascend(first.at, rest),
    }
}
