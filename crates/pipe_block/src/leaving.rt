//! What a block hands on, told from the rows of a walk through it.

ghost use Rattle.std.specs.Prelude.{◌≡◌, ◌≤◌, ◌<◌, ℕ, List, [], length, IfOk};
ghost use Rattle.flow_block.specs.declared.block.Block.{Block as BlockOf};
ghost use Rattle.flow_block.specs.Blocks.{most_slots};
ghost use Rattle.wx_base.specs.declared.machine.Machine.{Machine as MachineOf};
ghost use Rattle.wx_base.specs.Machine.{IsMachine};
ghost use Rattle.xdd_table.specs.Diagram.{Keeps};
ghost use Rattle.pipe_block.specs.Leavings.{IsFinishOf, IsLeaving};
ghost use Rattle.pipe_block.specs.Rows.{AreMerged};
ghost use Rattle.pipe_block.specs.Walks.{IsWalk};

use crate::arrival::place_of;
use crate::columns::{column, numbers, slot_times};
use crate::diagrams::{Leaving, Outcomes};
use crate::exits::exit_rows;
use crate::outcome::listed;
use crate::row::Row;
use crate::walked::Walked;
use indexmap::IndexSet;
use std::alloc::Global;
use wx_base::{Machine, NoMemory};
use xdd_table::{Dd, Table};

/// The positions of rows in an empty set, where each is put last if it is not there.
fn places_in(alloc: Global, set: &mut IndexSet<Row>, rows: &[Row]) -> Result<Vec<u64>, NoMemory>
    requires { set.old.keys ≡ [] }
    ensures { IfOk result (λ places. AreMerged rows.now set.new.keys places.items) }
{
    let mut places = Vec::new(alloc);
    for row in rows {
        let place = place_of(set, *row)?;
        places.push(place)?;
    }
    Ok(places)
}

/// The diagram of the time at which a block is complete.
pub fn finish_from(table: &mut Table, walked: &Walked) -> Result<Dd, NoMemory>
    requires { walked.now.root.place < length walked.now.plan }
    ensures finish { (m : MachineOf) (from : List ℕ) (b : BlockOf) → length b.slots ≤ most_slots
        → IsWalk walked.now.plan walked.now.rows.keys m from b walked.now.root.place
        → IfOk result (IsFinishOf table.new m from b) }
    ensures kept { Keeps table.old table.new }
{
    let rows = walked.rows.as_slice();
    let times = slot_times(table.allocator(), rows, 14)?;
    let all = times.as_slice();
    column(table, &walked.plan, walked.root, all)
}

/// What a block hands on, where its last instruction jumps or does not.
pub fn leaving_from(
    table: &mut Table,
    walked: &Walked,
    taken: bool,
    m: &Machine,
) -> Result<Leaving, NoMemory>
    requires within { walked.now.root.place < length walked.now.plan }
    requires machine { IsMachine m.now }
    ensures leaving { (from : List ℕ) (b : BlockOf) → length b.slots ≤ most_slots
        → IsWalk walked.now.plan walked.now.rows.keys m.now from b walked.now.root.place
        → IfOk result (IsLeaving table.new m.now from b taken) }
    ensures kept { Keeps table.old table.new }
{
    let alloc = table.allocator();
    let rows = walked.rows.as_slice();
    let exits = exit_rows(alloc, rows, taken, m)?;
    let all = exits.as_slice();
    let mut different = IndexSet::new(alloc);
    let places = places_in(alloc, &mut different, all)?;
    let costs = numbers(alloc, all)?;
    let times = costs.as_slice();
    let cost = column(table, &walked.plan, walked.root, times)?;
    let numbered = places.as_slice();
    let place = column(table, &walked.plan, walked.root, numbered)?;
    let found = different.as_slice();
    let list = listed(alloc, found)?;
    Ok(Leaving {
        cost,
        place,
        list: Outcomes::new(list),
    })
}
