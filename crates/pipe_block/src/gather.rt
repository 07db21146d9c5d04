//! The different rows that diagrams give, and a plan that leads each combination to the position of its row.

ghost use Rattle.std.specs.Prelude.{◌≡◌, ◌≤◌, ◌<◌, ℕ, false, true, length, map, slice_index, All, IfOk, OnOk, EachIndex};
ghost use Rattle.indexmap.specs.IndexMap.{get};
ghost use Rattle.xdd_table.specs.Diagram.{Combination, time, BeginsAfter, EventsLess, Keeps};
ghost use Rattle.pipe_block.specs.Times.{times_at, AreDiagrams, IsDiagram};
ghost use Rattle.pipe_block.specs.Rows.{row_at, parts, AllAfter, AreFrom, IsCofactor, AreCofactors, LeadsTo, AreGathered, AddsGiven, Extends, IsFirst};

use crate::arrival::arrive;
use crate::row::{Bundle, Row};
use indexmap::{IndexMap, IndexSet};
use wx_base::NoMemory;
use xdd_table::{Dd, Node, Table};

/// More than the number of every event of a block.
const END: u32 = 12;

/// The event at the root of a diagram, or `END` if it has none before.
fn root_event(table: &Table, d: Dd) -> u32
    requires { d.place < length table.now }
    ensures bound { result ≤ 12 }
    ensures first { IsFirst table.now result d }
{
    match table.node(d) {
        Node::Branch { event, .. } if event < END => event,
        _ => END,
    }
}

/// The first event of the diagrams, or `END`.
fn first_event(table: &Table, bundle: &Bundle) -> u32
    requires { AreDiagrams table.now 12 (parts bundle.now) }
    ensures bound { result ≤ 12 }
    ensures from { AreFrom table.now result (parts bundle.now) }
    ensures first { (e : ℕ) → AllAfter table.now e (parts bundle.now) → result < 12 → e < result }
    ensures below { (bound : ℕ) → AreDiagrams table.now bound (parts bundle.now) → result < 12 → result < bound }
    ensures level { (level : ℕ) → level ≤ 12 → AreFrom table.now level (parts bundle.now) → level ≤ result }
{
    let mut first = root_event(table, bundle.number);
    for d in &bundle.slots {
        first = first.min(root_event(table, *d));
    }
    first
}

/// The diagram where the event hits or misses, if it reads no event before that one.
fn cofactor(table: &Table, d: Dd, event: u32, misses: bool) -> Dd
    requires within { d.place < length table.now }
    requires from { (e : ℕ) → e < event → BeginsAfter table.now e d.place }
    ensures { IsCofactor table.now event misses d result }
{
    match table.node(d) {
        Node::Branch {
            event: root,
            hit,
            miss,
        } if root == event => { if misses { miss } else { hit } }
        _ => d,
    }
}

/// The diagrams where the event hits or misses, if they read no event before that one.
fn cofactors(table: &Table, bundle: &Bundle, event: u32, misses: bool) -> Bundle
    requires diagrams { AreDiagrams table.now 12 (parts bundle.now) }
    requires from { AreFrom table.now event (parts bundle.now) }
    ensures { AreCofactors table.now event misses bundle.now result }
{
    let mut slots = bundle.slots;
    for k in 0..35 {
        slots[k] = cofactor(table, slots[k], event, misses);
    }
    Bundle {
        number: cofactor(table, bundle.number, event, misses),
        slots,
    }
}

/// The time of a diagram that reads no event.
fn leaf_time(table: &Table, d: Dd) -> u64
    requires diagram { IsDiagram table.now 12 d }
    requires from { (e : ℕ) → e < 12 → BeginsAfter table.now e d.place }
    ensures { (f : Combination) → time table.now f d.place ≡ result }
{
    match table.node(d) {
        Node::Leaf { time } => time,
        Node::Branch { .. } => unreachable!(),
    }
}

/// The row of diagrams that read no event.
fn leaf_row(table: &Table, bundle: &Bundle) -> Row
    requires diagrams { AreDiagrams table.now 12 (parts bundle.now) }
    requires from { AreFrom table.now 12 (parts bundle.now) }
    ensures { (f : Combination) → row_at table.now bundle.now f ≡ result }
{
    let mut slots = [0; 35];
    for k in 0..35 {
        slots[k] = leaf_time(table, bundle.slots[k]);
    }
    Row {
        number: leaf_time(table, bundle.number),
        slots,
    }
}

/// The diagram of the plan that leads to the rows of diagrams that read no event before `level`.
///
/// What was found for diagrams that read an event is kept, so equal diagrams are taken apart once.
pub fn gather(
    table: &Table,
    bundle: &Bundle,
    level: u32,
    plan: &mut Table,
    rows: &mut IndexSet<Row>,
    known: &mut IndexMap<Bundle, Dd>,
) -> Result<Dd, NoMemory>
    requires diagrams { AreDiagrams table.now 12 (parts bundle.now) }
    requires from { AreFrom table.now level (parts bundle.now) }
    requires level { level ≤ 12 }
    requires known { AreGathered plan.old rows.old.keys table.now (get ⟦<Bundle as PartialEq>⟧.eq known.old) }
    ensures leads { IfOk result (λ d. LeadsTo plan.new rows.new.keys table.now bundle.now d.place) }
    ensures known { OnOk result
        (AreGathered plan.new rows.new.keys table.now (get ⟦<Bundle as PartialEq>⟧.eq known.new)) }
    ensures kept { Keeps plan.old plan.new }
    ensures rows { Extends rows.old.keys rows.new.keys }
    ensures given { AddsGiven rows.old.keys rows.new.keys (row_at table.now bundle.now) level }
{
    let event = first_event(table, bundle);
    if event == END {
        return arrive(plan, rows, leaf_row(table, bundle));
    }
    if let Some(answer) = known.get(bundle) {
        return Ok(*answer);
    }
    let hits = cofactors(table, bundle, event, false);
    let hit = gather(table, &hits, event + 1, plan, rows, known)?;
    let misses = cofactors(table, bundle, event, true);
    let miss = gather(table, &misses, event + 1, plan, rows, known)?;
    let answer = plan.branch(event, hit, miss)?;
    known.insert(*bundle, answer)?;
    Ok(answer)
}
