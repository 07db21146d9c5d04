//! The events of an instruction in a block: the block's first fetch of a line, and then its multiplication or access
//! to data.

ghost use Rattle.std.specs.Prelude.{◌≡◌, ◌≤◌, ◌++◌, OnOk, length, option_to_list};
ghost use Rattle.std.specs.List.{list_any};
ghost use Rattle.arm_code.specs.Encoding.{IsValid, word_of};
ghost use Rattle.wx_base.specs.Machine.{IsMachine};
ghost use Rattle.flow_block.specs.Blocks.{unit_slots};
ghost use Rattle.flow_block.specs.Events.{fetches, fetch_after, events_of, events_after};

use crate::block::{Slot, SlotKind};
use arm_code::{Insn, UnitKind, unit};
use wx_base::{Machine, NoMemory};

/// The events of one instruction, in this order.
#[derive(Clone, Copy)]
pub(crate) struct Events {
    fetch: Option<Slot>,
    work: Option<Slot>,
}

/// Whether an event is the fetch of a line.
fn fetches(event: &Slot, line: u32) -> bool
    ensures { result ≡ fetches line event.now }
{
    match event.kind {
        SlotKind::Fetch { line: other } => other == line,
        SlotKind::Multiply | SlotKind::Data => false,
    }
}

/// Whether a line was fetched before.
fn is_fetched(events: &[Slot], line: u32) -> bool
    ensures { result ≡ list_any (λ event. fetches line event) events.now }
{
    events.iter().any(|event| fetches(event, line))
}

/// The event of a fetch of a line, if it is the first.
fn fetch_after(events: &[Slot], at: u32, line: u32) -> Option<Slot>
    ensures { option_to_list result ≡ fetch_after events.now at line }
{
    if is_fetched(events, line) {
        None
    } else {
        Some(Slot {
            at,
            kind: SlotKind::Fetch { line },
        })
    }
}

/// The event of a unit's work.
fn work_of(at: u32, unit: UnitKind) -> Option<Slot>
    ensures { option_to_list result ≡ unit_slots at unit }
{
    let kind = match unit {
        UnitKind::Alu => return None,
        UnitKind::Mul => SlotKind::Multiply,
        UnitKind::Mem => SlotKind::Data,
    };
    Some(Slot { at, kind })
}

impl Events {
    /// The events of an instruction behind others of its block, as the number `at` of the block.
    pub(crate) fn after(
        events: &[Slot],
        at: u32,
        address: u32,
        insn: &Insn,
        machine: &Machine,
    ) -> Events
        requires valid { IsValid insn.now }
        requires ranges { IsMachine machine.now }
        ensures { events_of result ≡ events_after machine.now events.now at address (word_of insn.now) }
    {
        Events {
            fetch: fetch_after(events, at, address / machine.shape.line),
            work: work_of(at, unit(insn)),
        }
    }

    /// How many there are.
    pub(crate) fn len(&self) -> usize
        ensures value { result ≡ length (events_of self.now) }
        ensures few { result ≤ 2 }
    {
        usize::from(self.fetch.is_some()) + usize::from(self.work.is_some())
    }

    /// Puts them behind others.
    pub(crate) fn put(self, events: &mut Vec<Slot>) -> Result<(), NoMemory>
        ensures { OnOk result (events.new.items ≡ events.old.items ++ events_of self) }
    {
        if let Some(event) = self.fetch {
            events.push(event)?;
        }
        if let Some(event) = self.work {
            events.push(event)?;
        }
        Ok(())
    }
}
