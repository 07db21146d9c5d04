//! Where blocks of a function begin: where they do whatever stands before, and where an earlier one is cut.

ghost use Rattle.std.specs.Prelude.{◌≡◌, ◌<◌, ◌+◌, ℕ, IfOk, OnOk, MatchOption, length};
ghost use Rattle.wx_base.specs.Facts.{AreAscending};
ghost use Rattle.wx_base.specs.Machine.{IsMachine};
ghost use Rattle.flow_block.specs.Blocks.{IsOfFunction};
ghost use Rattle.flow_block.specs.Code.{Subject, IsThere, HasCode, AreLeaders};
ghost use Rattle.flow_block.specs.Starts.{IsCut, AreThoseMarked, AddsStart, StartsTo, AreStarts};

use crate::code::{Code, place};
use crate::growth::Growth;
use crate::leaders::is_end;
use arm_code::flow;
use std::alloc::Global;
use wx_base::{Machine, NoMemory};

/// Starts of blocks: marks at the addresses, and the same as a list in the order in which they were found.
#[derive(Drop)]
struct Queue {
    marks: Vec<bool>,
    queue: Vec<u32>,
}

/// The addresses whose marks are set, ascending.
pub(crate) fn marked_addresses(
    alloc: Global,
    code: &Code,
    marks: &[bool],
) -> Result<Vec<u32>, NoMemory>
    requires ascending { AreAscending code.now.addresses.now }
    requires mark_each { length marks.now ≡ length code.now.addresses.now }
    ensures { IfOk result (λ list. AreThoseMarked code.now.addresses.now marks.now list.items) }
{
    let mut list = Vec::new(alloc);
    for place in 0..code.addresses.len() {
        if marks[place] {
            list.push(code.addresses[place])?;
        }
    }
    Ok(list)
}

/// The address before which the block from a start is cut, unless its last instruction ends it.
fn cut(
    alloc: Global,
    code: &Code,
    leaders: &[bool],
    machine: &Machine,
    start: u32,
) -> Result<Option<u32>, NoMemory>
    ghost of: { Subject }
    requires code { HasCode of code.now.addresses.now code.now.insns.now }
    requires marks { AreLeaders of code.now.addresses.now leaders.now }
    requires ranges { IsMachine machine.now }
    requires own { IsOfFunction of.image of.facts of.entry start }
    ensures { IfOk result (λ next. MatchOption next ((a : ℕ) → IsCut of machine.now start a → ⊥)
        (λ a. IsCut of machine.now start a)) }
{
    let Growth {
        insns: list,
        events: _,
    } = Growth::from(alloc, code, leaders, machine, start)?;
    let before = list.len() - 1;
    let last = start.wrapping_add(4 * before as u32);
    if is_end(flow(&list[before], last)) {
        return Ok(None);
    }
    Ok(Some(last.wrapping_add(4)))
}

impl Queue {
    /// Marks and queues a start, unless it is.
    fn add(&mut self, code: &Code, start: u32) -> Result<(), NoMemory>
        requires ascending { AreAscending code.now.addresses.now }
        requires listed { IsThere code.now.addresses.now start }
        requires mark_each { length self.old.marks.items ≡ length code.now.addresses.now }
        ensures { OnOk result (AddsStart code.now.addresses.now start self.old.marks.items self.new.marks.items
            self.old.queue.items self.new.queue.items) }
    {
        let at = place(code.addresses, start);
        if self.marks[at] {
            return Ok(());
        }
        self.marks[at] = true;
        self.queue.push(start)?;
        Ok(())
    }

    /// Goes through the queue: looks for the cut of one start, number `at`.
    fn step(
        &mut self,
        alloc: Global,
        code: &Code,
        leaders: &[bool],
        machine: &Machine,
        at: usize,
    ) -> Result<(), NoMemory>
        ghost of: { Subject }
        requires code { HasCode of code.now.addresses.now code.now.insns.now }
        requires marks { AreLeaders of code.now.addresses.now leaders.now }
        requires ranges { IsMachine machine.now }
        requires so_far { StartsTo of machine.now code.now.addresses.now self.old.marks.items self.old.queue.items at }
        requires within { at < length self.old.queue.items }
        ensures { OnOk result (StartsTo of machine.now code.now.addresses.now self.new.marks.items
            self.new.queue.items (at + 1)) }
    {
        let found = cut(alloc, code, leaders, machine, self.queue[at])?;
        match found {
            Some(next) => self.add(code, next),
            None => Ok(()),
        }
    }

    /// Goes through the queue, which grows by what is found.
    fn close(
        &mut self,
        alloc: Global,
        code: &Code,
        leaders: &[bool],
        machine: &Machine,
    ) -> Result<(), NoMemory>
        ghost of: { Subject }
        requires code { HasCode of code.now.addresses.now code.now.insns.now }
        requires marks { AreLeaders of code.now.addresses.now leaders.now }
        requires ranges { IsMachine machine.now }
        requires so_far { StartsTo of machine.now code.now.addresses.now self.old.marks.items self.old.queue.items 0 }
        ensures { OnOk result (AreStarts of machine.now code.now.addresses.now self.new.marks.items) }
    {
        for at in 0..usize::MAX {
            if at >= self.queue.len() {
                return Ok(());
            }
            self.step(alloc, code, leaders, machine, at)?;
        }
        Ok(())
    }
}

/// Marks at the addresses where blocks begin.
pub(crate) fn starts(
    alloc: Global,
    code: &Code,
    leaders: &[bool],
    machine: &Machine,
) -> Result<Vec<bool>, NoMemory>
    ghost of: { Subject }
    requires code { HasCode of code.now.addresses.now code.now.insns.now }
    requires marks { AreLeaders of code.now.addresses.now leaders.now }
    requires ranges { IsMachine machine.now }
    ensures { IfOk result (λ marks. AreStarts of machine.now code.now.addresses.now marks.items) }
{
    let mut queue = Queue {
        marks: leaders.to_vec(alloc)?,
        queue: marked_addresses(alloc, code, leaders)?,
    };
    queue.close(alloc, code, leaders, machine)?;
    let Queue { marks, queue: _ } = queue;
    Ok(marks)
}
