//! What the edges of a node hand on from a vector.

ghost use Rattle.std.specs.Prelude.{◌≡◌, ◌↔◌, ◌<◌, ◌≤◌, ◌^◌, ℕ, List, length, slice_get, Some, Contains, IfOk};
ghost use Rattle.wx_base.specs.Machine.{IsMachine};
ghost use Rattle.wx_base.specs.Vector.{AreWithin};
ghost use Rattle.flow_ctx.specs.Laws.{IsUnfoldedOn};
ghost use Rattle.xdd_table.specs.Diagram.{Combination, Keeps, time};
ghost use Rattle.cache_class.specs.Classes.{AreClasses};
ghost use Rattle.pipe_block.specs.Kept.{AreEndsRight};
ghost use Rattle.state_families.specs.Families.{IsExitOf};
ghost use Rattle.state_families.specs.Leaving.{IsAllowedExit, IsPicked};

use crate::node_set::Slots;
use crate::subject::{Subject, classes_at};
use crate::work::{Work, leave_along};
use cache_class::Class;
use cert_judge::settle;
use flow_ctx::{Edge, nodes_have_blocks};
use pipe_block::{Leaving, Outcome, blocks_are_timed, kept_answers_stay};
use std::alloc::Global;
use wx_text::NoMemory;
use xdd_ops::{Pairs, zip};
use xdd_table::Table;

/// The slots of the outcomes whose positions stand in pairs.
fn picked(alloc: Global, pairs: &Pairs, outcomes: &[Outcome]) -> Result<Vec<Slots>, NoMemory>
    requires { (i : ℕ) (x : ℕ × ℕ) → slice_get pairs.now i ≡ Some x → x.0 < length outcomes.now }
    ensures { IfOk result (λ list. (slots : List ℕ) → Contains list.items slots
        ↔ IsPicked pairs.now outcomes.now (length pairs.now) slots) }
{
    let mut list = Vec::new(alloc);
    for i in 0..pairs.len() {
        match pairs.get(i as u64) {
            Some((position, _)) => list.push(outcomes[position as usize].vector.slots)?,
            None => {}
        }
    }
    Ok(list)
}

/// The vectors that are handed on at the combinations that classes allow. An event that always hits or always misses is
/// given in the diagram of positions; what positions are left is told by pairing the diagram with itself.
fn allowed_exits(
    table: &mut Table,
    leaving: &Leaving,
    classes: &[Class],
) -> Result<Vec<Slots>, NoMemory>
    requires within { leaving.now.place.place < length table.old }
    requires positions { (f : Combination) → time table.old f leaving.now.place.place < length leaving.now.list }
    requires few { length classes.now ≤ 12 }
    ensures exits { IfOk result (λ list. (slots : List ℕ) → Contains list.items slots
        ↔ IsAllowedExit table.old classes.now leaving.now slots) }
    ensures kept { Keeps table.old table.new }
{
    let place = settle(table, leaving.place, classes)?;
    let mut pairs = Pairs::new(table.allocator());
    zip(table, place, place, &mut pairs)?;
    picked(table.allocator(), &pairs, leaving.list.as_slice())
}

/// The vectors that an edge hands on from a vector of its source.
pub(crate) fn exits_from(
    table: &mut Table,
    work: &mut Work,
    subject: &Subject,
    edge: Edge,
    source: &Slots,
) -> Result<Vec<Slots>, NoMemory>
    requires small { AreWithin (10 ^ 18) source.now }
    requires node { edge.from < length subject.now.unfolded.now.nodes }
    requires unfolded { IsUnfoldedOn subject.now.machine.now subject.now.unfolded.now }
    requires classes { let s = subject.now in AreClasses s.unfolded.now s.machine.now s.classes.now }
    requires machine { IsMachine subject.now.machine.now }
    requires right { let s = subject.now in
        AreEndsRight table.old work.old.pool s.machine.now s.unfolded.now work.old.memo }
    ensures exits { let s = subject.now in IfOk result (λ list. (slots : List ℕ) → Contains list.items slots
        ↔ IsExitOf s.unfolded.now s.machine.now s.classes.now edge source.now slots) }
    ensures right { let s = subject.now in
        AreEndsRight table.new work.new.pool s.machine.now s.unfolded.now work.new.memo }
    ensures kept { Keeps table.old table.new }
{
    kept_answers_stay();
    nodes_have_blocks();
    blocks_are_timed();
    let number = leave_along(table, work, subject, edge, source)?;
    let leaving = work.memo.leaving(number);
    allowed_exits(table, leaving, classes_at(subject.classes, edge.from))
}
