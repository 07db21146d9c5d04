//! A walk through a block's instructions with the state of the pipeline in hand, which parts at each event.

ghost use Rattle.std.specs.Prelude.{◌≡◌, ◌+◌, ◌<◌, length, drop, IfSome, IfNone, IfOk, OnOk};
ghost use Rattle.indexmap.specs.IndexMap.{get};
ghost use Rattle.wx_base.specs.Machine.{IsMachine};
ghost use Rattle.wx_base.specs.Vector.{AreWithin};
ghost use Rattle.xdd_table.specs.Diagram.{Keeps};
ghost use Rattle.pipe_block.specs.Rows.{AddsGiven, Extends};
ghost use Rattle.pipe_block.specs.Walks.{IsNextEvent, NoneHere, decided_state, passed_state, bound_at, IsCourse, IsState, LeadsOn, AreWalked, row_of_state};

use crate::arrival::arrive;
use crate::row::Row;
use crate::state::State;
use arm_code::Insn;
use flow_block::{Slot, SlotKind};
use indexmap::{IndexMap, IndexSet};
use pipe_time::{Entry, Vector, advance, windows_go_on};
use wx_base::{Machine, NoMemory};
use xdd_table::{Dd, Table};

/// What a walk goes through.
#[derive(Clone, Copy)]
pub struct Course<'a, 'm> {
    pub insns: &'a [Insn],
    pub events: &'a [Slot],
    pub machine: &'m Machine,
}

impl State {
    /// The kind of the next event, if it is one of the next instruction.
    fn next_event(&self, events: &[Slot]) -> Option<SlotKind>
        ensures some { IfSome result (λ kind. IsNextEvent self.now.at (drop self.now.decided events.now) kind) }
        ensures within { IfSome result (λ _. self.now.decided < length events.now) }
        ensures none { IfNone result (NoneHere self.now.at (drop self.now.decided events.now)) }
    {
        let event = events.get(self.decided)?;
        (event.at as usize == self.at).then_some(event.kind)
    }

    /// The state with the next event decided.
    fn decide(&self, kind: SlotKind, misses: bool) -> State
        requires { self.now.decided < 12 }
        ensures { result ≡ decided_state kind misses self.now }
    {
        let (miss, slow) = match kind {
            SlotKind::Fetch { .. } => (self.miss || misses, self.slow),
            SlotKind::Multiply | SlotKind::Data => (self.miss, self.slow || misses),
        };
        State {
            at: self.at,
            decided: self.decided + 1,
            miss,
            slow,
            slots: self.slots,
        }
    }
}

/// The end of the next instruction, and the state behind it.
fn pass(course: &Course, state: &State) -> (u64, State)
    requires machine { IsMachine course.now.machine.now }
    requires course { IsCourse course.now.insns.now course.now.events.now }
    requires state { IsState course.now.insns.now course.now.events.now state.now }
    ensures passed { result ≡ passed_state course.now.machine.now course.now.insns.now state.now }
    ensures small { AreWithin (bound_at (state.now.at + 1)) result.1.slots }
{
    let entry = Entry {
        insn: course.insns[state.at],
        miss: state.miss,
        slow: state.slow,
        taken: false,
    };
    let mut vector = Vector { slots: state.slots };
    let times = advance(&mut vector, &entry, course.machine);
    let next = State {
        at: state.at + 1,
        decided: state.decided,
        miss: false,
        slow: false,
        slots: vector.slots,
    };
    (times.xe, next)
}

/// The diagram of the plan that leads to the rows which the combinations make of a state.
///
/// What was found for a state before an event is kept, so equal states are walked on from once.
pub fn walk(
    course: &Course,
    state: &State,
    plan: &mut Table,
    rows: &mut IndexSet<Row>,
    known: &mut IndexMap<State, Dd>,
) -> Result<Dd, NoMemory>
    requires machine { IsMachine course.now.machine.now }
    requires course { IsCourse course.now.insns.now course.now.events.now }
    requires state { IsState course.now.insns.now course.now.events.now state.now }
    requires known { AreWalked plan.old rows.old.keys
        course.now.machine.now course.now.insns.now course.now.events.now (get ⟦<State as PartialEq>⟧.eq known.old) }
    ensures leads { IfOk result (λ d. LeadsOn plan.new rows.new.keys
        course.now.machine.now course.now.insns.now course.now.events.now state.now d.place) }
    ensures known { OnOk result (AreWalked plan.new rows.new.keys
        course.now.machine.now course.now.insns.now course.now.events.now (get ⟦<State as PartialEq>⟧.eq known.new)) }
    ensures kept { Keeps plan.old plan.new }
    ensures rows { Extends rows.old.keys rows.new.keys }
    ensures given { AddsGiven rows.old.keys rows.new.keys
        (row_of_state course.now.machine.now course.now.insns.now course.now.events.now state.now) state.now.decided }
{
    if let Some(kind) = state.next_event(course.events) {
        if let Some(answer) = known.get(state) {
            return Ok(*answer);
        }
        let hit = walk(course, &state.decide(kind, false), plan, rows, known)?;
        let miss = walk(course, &state.decide(kind, true), plan, rows, known)?;
        let answer = plan.branch(state.decided as u32, hit, miss)?;
        known.insert(*state, answer)?;
        return Ok(answer);
    }
    windows_go_on();
    let (end, next) = pass(course, state);
    if next.at == course.insns.len() {
        let row = Row {
            number: end,
            slots: next.slots,
        };
        return arrive(plan, rows, row);
    }
    walk(course, &next, plan, rows, known)
}
