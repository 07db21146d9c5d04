ghost use Rattle.std.specs.Prelude.{◌≡◌, ℕ, ◌<◌, length, slice_get, Some, IfOk};
ghost use Rattle.xdd_table.specs.Diagram.{Combination, time, BeginsAfter, EventsLess, Keeps};

use crate::memo::apply;
use crate::operation::Operation;
use crate::steps::Steps;
use std::marker::Brand;
use std::sync::ledger::{Blank, Ledger};
use wx_text::NoMemory;
use xdd_table::{Dd, Table};

/// Looks up the time of the first leaf. Both diagrams are one, so the second leaf is the same.
#[derive(Drop)]
struct Replacement<'a> {
    times: &'a [u64],
}

impl Operation for Replacement<'_> {
    ghost gives = { λ s a b r. slice_get s.times.now a ≡ Some r };

    ghost can = { λ s a b. a < length s.times.now };

    fn of_leaves(&mut self, a: u64, _: u64) -> Result<u64, NoMemory> {
        Ok(self.times[a as usize])
    }

    fn shortcut(&self, _: &Table, _: (Dd, Dd)) -> Option<Dd> {
        None
    }
}

/// The diagram whose time is `times[t]` where that of `d` is `t`, at every combination.
///
/// Each leaf below `d` is less than the number of `times`. Each node below `d` is taken apart once.
pub fn replace(table: &mut Table, d: Dd, times: &[u64]) -> Result<Dd, NoMemory>
    requires within { d.place < length table.old }
    requires times { (f : Combination) → time table.old f d.place < length times.now }
    ensures times { IfOk result (λ r. (f : Combination)
        → slice_get times.now (time table.old f d.place) ≡ Some (time table.new f r.place)) }
    ensures within { IfOk result (λ r. r.place < length table.new) }
    ensures after { IfOk result (λ r. (e : ℕ) → BeginsAfter table.old e d.place → BeginsAfter table.new e r.place) }
    ensures events { IfOk result (λ r. (bound : ℕ) → EventsLess table.old d.place bound
        → EventsLess table.new r.place bound) }
    ensures kept { Keeps table.old table.new }
{
    replace_in::<Brand>(table, d, times, Blank::new(1))
}

/// `replace`, which counts its steps in a ledger that nobody looks at.
fn replace_in<L: Ledger>(
    table: &mut Table,
    d: Dd,
    times: &[u64],
    blank: Blank,
) -> Result<Dd, NoMemory>
    requires name { blank.name ≡ L.name }
    requires parts { blank.parts ≡ L.parts }
    requires some { 0 < blank.parts }
    requires within { d.place < length table.old }
    requires times { (f : Combination) → time table.old f d.place < length times.now }
    ensures times { IfOk result (λ r. (f : Combination)
        → slice_get times.now (time table.old f d.place) ≡ Some (time table.new f r.place)) }
    ensures within { IfOk result (λ r. r.place < length table.new) }
    ensures after { IfOk result (λ r. (e : ℕ) → BeginsAfter table.old e d.place → BeginsAfter table.new e r.place) }
    ensures events { IfOk result (λ r. (bound : ℕ) → EventsLess table.old d.place bound
        → EventsLess table.new r.place bound) }
    ensures kept { Keeps table.old table.new }
{
    let mut operation = Replacement { times };
    apply(table, (d, d), &mut operation, &mut Steps::<L>::new(blank))
}
