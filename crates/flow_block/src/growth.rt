//! The instructions and events of the block that begins at an address.

ghost use Rattle.std.specs.Prelude.{◌<◌, ◌≤◌, IfOk, MatchBool, length};
ghost use Rattle.wx_base.specs.Facts.{AreAscending};
ghost use Rattle.wx_base.specs.Machine.{IsMachine};
ghost use Rattle.arm_code.specs.Encoding.{IsValid};
ghost use Rattle.flow_block.specs.Blocks.{IsOfFunction, IsLeader};
ghost use Rattle.flow_block.specs.Code.{Subject, IsInsn, HasCode, AreLeaders};
ghost use Rattle.flow_block.specs.Growth.{IsGrowing, IsGrown, StepGives, AddGives, EndsBehind, GoesBehind};

use crate::block::Slot;
use crate::code::{Code, find, place};
use crate::events::Events;
use crate::leaders::is_end;
use arm_code::{Insn, flow};
use std::alloc::Global;
use wx_base::{Machine, NoMemory};

/// The greatest number of instructions of a block.
const MOST_INSNS: u32 = 32;

/// The greatest number of events of a block.
const MOST_EVENTS: usize = 12;

/// Instructions of a block, and their events.
#[derive(Drop)]
pub(crate) struct Growth {
    pub(crate) insns: Vec<Insn>,
    pub(crate) events: Vec<Slot>,
}

/// Whether a block begins at an address whatever stands before.
fn is_leader(code: &Code, leaders: &[bool], address: u32) -> bool
    ghost of: { Subject }
    requires ascending { AreAscending code.now.addresses.now }
    requires marks { AreLeaders of code.now.addresses.now leaders.now }
    ensures { MatchBool result (IsLeader of.image of.facts of.entry address)
        (IsLeader of.image of.facts of.entry address → ⊥) }
{
    match find(code.addresses, address) {
        Some(place) => leaders[place],
        None => false,
    }
}

/// Whether a block ends with an instruction, by what it is and what stands behind.
fn ends_behind(code: &Code, leaders: &[bool], insn: &Insn, address: u32) -> bool
    ghost of: { Subject }
    requires ascending { AreAscending code.now.addresses.now }
    requires marks { AreLeaders of code.now.addresses.now leaders.now }
    requires here { IsInsn of.image address insn.now }
    ensures { MatchBool result (EndsBehind of address) (GoesBehind of address) }
{
    if is_end(flow(insn, address)) {
        return true;
    }
    is_leader(code, leaders, address.wrapping_add(4))
}

impl Growth {
    /// Puts an instruction behind, unless there would be too many events; whether it did.
    fn add(
        &mut self,
        at: u32,
        address: u32,
        insn: &Insn,
        machine: &Machine,
    ) -> Result<bool, NoMemory>
        requires valid { IsValid insn.now }
        requires ranges { IsMachine machine.now }
        requires few { length self.old.events.items ≤ 12 }
        ensures { IfOk result (λ added. AddGives machine.now self.old.insns.items self.old.events.items at address
            insn.now self.new.insns.items self.new.events.items added) }
    {
        let more = Events::after(&self.events, at, address, insn, machine);
        if self.events.len() + more.len() > MOST_EVENTS {
            return Ok(false);
        }
        more.put(&mut self.events)?;
        self.insns.push(*insn)?;
        Ok(true)
    }

    /// Goes on with the instruction behind these, the number `at` of the block; whether the block goes on behind it.
    fn step(
        &mut self,
        code: &Code,
        leaders: &[bool],
        machine: &Machine,
        start: u32,
        at: u32,
    ) -> Result<bool, NoMemory>
        ghost of: { Subject }
        requires code { HasCode of code.now.addresses.now code.now.insns.now }
        requires marks { AreLeaders of code.now.addresses.now leaders.now }
        requires ranges { IsMachine machine.now }
        requires growing { IsGrowing of machine.now start at self.old.insns.items self.old.events.items }
        requires short { at < 32 }
        ensures { IfOk result (λ goes. StepGives of machine.now start at self.new.insns.items
            self.new.events.items goes) }
    {
        let address = start.wrapping_add(4 * at);
        let insn = &code.insns[place(code.addresses, address)];
        if !self.add(at, address, insn, machine)? {
            return Ok(false);
        }
        Ok(!ends_behind(code, leaders, insn, address))
    }

    /// The block that begins at an address.
    pub(crate) fn from(
        alloc: Global,
        code: &Code,
        leaders: &[bool],
        machine: &Machine,
        start: u32,
    ) -> Result<Growth, NoMemory>
        ghost of: { Subject }
        requires code { HasCode of code.now.addresses.now code.now.insns.now }
        requires marks { AreLeaders of code.now.addresses.now leaders.now }
        requires ranges { IsMachine machine.now }
        requires own { IsOfFunction of.image of.facts of.entry start }
        ensures { IfOk result (λ grown. IsGrown of machine.now start grown.insns.items grown.events.items) }
    {
        let mut growth = Growth {
            insns: Vec::new(alloc),
            events: Vec::new(alloc),
        };
        for at in 0..MOST_INSNS {
            if !growth.step(code, leaders, machine, start, at)? {
                return Ok(growth);
            }
        }
        Ok(growth)
    }
}
