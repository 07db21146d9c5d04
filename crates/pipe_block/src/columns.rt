//! The diagrams of rows, column by column, where a plan leads each combination to the position of its row.

ghost use Rattle.std.specs.Prelude.{◌≡◌, ◌<◌, true, length, map, slice_index, All, IfOk};
ghost use Rattle.xdd_table.specs.Diagram.{Keeps};
ghost use Rattle.pipe_block.specs.Rows.{IsColumn, IsBuilt, AreBuilt, AreColumns, GivesRows, column_of};

use crate::row::{Bundle, Row};
use std::alloc::Global;
use wx_base::NoMemory;
use xdd_table::{Dd, Node, Table};

/// Whether all times are `first`.
fn are_one(times: &[u64], first: u64) -> bool
    ensures { result ≡ true → All (λ t. t ≡ first) times.now }
{
    times.iter().all(|time| *time == first)
}

/// The time of a position, 0 past the last.
fn time_at(times: &[u64], position: u64) -> u64
    ensures { result ≡ slice_index times.now position }
{
    if position < times.len() as u64 {
        times[position as usize]
    } else {
        0
    }
}

/// The diagram of one node of a plan, from those of the nodes before it. A position past the last time stands for 0.
fn rebuilt(
    table: &mut Table,
    plan: &Table,
    place: usize,
    times: &[u64],
    built: &[Dd],
) -> Result<Dd, NoMemory>
    requires within { place < length plan.now }
    requires long { length built.now ≡ place }
    requires built { AreBuilt plan.now table.old times.now built.now }
    ensures built { IfOk result (λ d. IsBuilt plan.now table.new times.now place d) }
    ensures kept { Keeps table.old table.new }
{
    match plan.node(Dd { place }) {
        Node::Leaf { time } => table.leaf(time_at(times, time)),
        Node::Branch { event, hit, miss } => {
            table.branch(event, built[hit.place], built[miss.place])
        }
    }
}

/// The diagrams of all nodes of a plan, with the time of its position in place of each leaf.
fn rebuild(table: &mut Table, plan: &Table, times: &[u64]) -> Result<Vec<Dd>, NoMemory>
    ensures built { IfOk result (λ built. AreBuilt plan.now table.new times.now built.items) }
    ensures long { IfOk result (λ built. length built.items ≡ length plan.now) }
    ensures kept { Keeps table.old table.new }
{
    let mut built: Vec<Dd> = Vec::new(table.allocator());
    for place in 0..plan.len() {
        let d = rebuilt(table, plan, place, times, built.as_slice())?;
        built.push(d)?;
    }
    Ok(built)
}

/// The diagram that has, at each combination, the time of the position to which the plan leads.
pub fn column(table: &mut Table, plan: &Table, root: Dd, times: &[u64]) -> Result<Dd, NoMemory>
    requires { root.place < length plan.now }
    ensures column { IfOk result (IsColumn plan.now table.new times.now root.place) }
    ensures kept { Keeps table.old table.new }
{
    let first = time_at(times, 0);
    if are_one(times, first) {
        return table.leaf(first);
    }
    let built = rebuild(table, plan, times)?;
    Ok(built[root.place])
}

/// Slot `k` of each row.
pub fn slot_times(alloc: Global, rows: &[Row], k: usize) -> Result<Vec<u64>, NoMemory>
    requires { k < 35 }
    ensures { IfOk result (λ times. times.items ≡ column_of k rows.now) }
{
    let mut times = Vec::new(alloc);
    for row in rows {
        times.push(row.slots[k])?;
    }
    Ok(times)
}

/// The number of each row.
pub fn numbers(alloc: Global, rows: &[Row]) -> Result<Vec<u64>, NoMemory>
    ensures { IfOk result (λ times. times.items ≡ map (λ r. r.number) rows.now) }
{
    let mut times = Vec::new(alloc);
    for row in rows {
        times.push(row.number)?;
    }
    Ok(times)
}

/// The diagrams of the slots of rows.
fn slot_columns(
    table: &mut Table,
    plan: &Table,
    root: Dd,
    rows: &[Row],
) -> Result<[Dd; 35], NoMemory>
    requires { root.place < length plan.now }
    ensures columns { IfOk result (AreColumns plan.now table.new rows.now root.place) }
    ensures kept { Keeps table.old table.new }
{
    let mut slots = [Dd { place: 0 }; 35];
    for k in 0..35 {
        let times = slot_times(table.allocator(), rows, k)?;
        let d = column(table, plan, root, times.as_slice())?;
        slots[k] = d;
    }
    Ok(slots)
}

/// The diagrams that give, at each combination, the row to which the plan leads.
pub fn columns(table: &mut Table, plan: &Table, root: Dd, rows: &[Row]) -> Result<Bundle, NoMemory>
    requires { root.place < length plan.now }
    ensures rows { IfOk result (GivesRows plan.now table.new rows.now root.place) }
    ensures kept { Keeps table.old table.new }
{
    let slots = slot_columns(table, plan, root, rows)?;
    let times = numbers(table.allocator(), rows)?;
    let number = column(table, plan, root, times.as_slice())?;
    Ok(Bundle { number, slots })
}
