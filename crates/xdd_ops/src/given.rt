ghost use Rattle.std.specs.Prelude.{◌≡◌, ℕ, ◌-◌, ◌<◌, ◌≤◌, true, false, nat_eq, length, IfOk, OnOk};
ghost use Rattle.indexmap.specs.IndexMap.{get};
ghost use Rattle.xdd_table.specs.Diagram.{Combination, with_event, time, BeginsAfter, EventsLess, IsTable, Keeps};
ghost use Rattle.xdd_ops.specs.Given.{IsFixed, AreFixed};

use crate::difference::greatest_difference;
use indexmap::IndexMap;
use wx_text::NoMemory;
use xdd_table::{Dd, Node, Table};

/// The diagram with the event given: `true` is a miss. Each node below `d` is looked at once.
pub fn fix(table: &mut Table, d: Dd, event: u32, miss: bool) -> Result<Dd, NoMemory>
    requires { d.place < length table.old }
    ensures times { IfOk result (λ r. (f : Combination)
        → time table.new f r.place ≡ time table.old (with_event f event miss) d.place) }
    ensures within { IfOk result (λ r. r.place < length table.new) }
    ensures after { IfOk result (λ r. (e : ℕ) → BeginsAfter table.old e d.place → BeginsAfter table.new e r.place) }
    ensures events { IfOk result (λ r. (bound : ℕ) → EventsLess table.old d.place bound
        → EventsLess table.new r.place bound) }
    ensures kept { Keeps table.old table.new }
{
    let mut fixed = IndexMap::new(table.allocator());
    fix_below(table, d, event, miss, &mut fixed)
}

/// The diagram with the event given, where `fixed` keeps what was found for branches above the event.
fn fix_below(
    table: &mut Table,
    d: Dd,
    event: u32,
    miss: bool,
    fixed: &mut IndexMap<usize, Dd>,
) -> Result<Dd, NoMemory>
    requires within { d.place < length table.old }
    requires memo { AreFixed table.old event miss (get nat_eq fixed.old) }
    ensures fixed { IfOk result (λ r. IsFixed table.new event miss d.place r.place) }
    ensures memo { OnOk result (AreFixed table.new event miss (get nat_eq fixed.new)) }
    ensures kept { Keeps table.old table.new }
    ensures table { IsTable table.new }
{
    match table.node(d) {
        Node::Branch {
            event: root,
            hit,
            miss: missed,
        } => {
            if event < root {
                return Ok(d);
            }
            if root == event {
                return Ok(if miss { missed } else { hit });
            }
            if let Some(known) = fixed.get(&d.place) {
                return Ok(*known);
            }
            let hit = fix_below(table, hit, event, miss, fixed)?;
            let missed = fix_below(table, missed, event, miss, fixed)?;
            let answer = table.branch(root, hit, missed)?;
            fixed.insert(d.place, answer)?;
            Ok(answer)
        }
        Node::Leaf { .. } => Ok(d),
    }
}

/// How much the time rises at most, in cycles, when the event misses in place of hitting: 0 where it never rises.
///
/// Each pair of places of the two diagrams with the event given is looked at once.
pub fn rise(table: &mut Table, d: Dd, event: u32) -> Result<u64, NoMemory>
    requires { d.place < length table.old }
    ensures bound { IfOk result (λ n. (f : Combination)
        → time table.old (with_event f event true) d.place - time table.old (with_event f event false) d.place ≤ n) }
    ensures attained { IfOk result (λ n. (f : Combination)
        × (n ≡ time table.old (with_event f event true) d.place - time table.old (with_event f event false) d.place)) }
    ensures kept { Keeps table.old table.new }
{
    let missed = fix(table, d, event, true)?;
    let hit = fix(table, d, event, false)?;
    let mut known = IndexMap::new(table.allocator());
    greatest_difference(table, missed, hit, &mut known)
}
