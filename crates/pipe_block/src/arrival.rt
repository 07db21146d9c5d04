ghost use Rattle.std.specs.Prelude.{◌≡◌, ◌<◌, ◌⊎◌, ℕ, length, slice_get, Some, IfOk};
ghost use Rattle.xdd_table.specs.Diagram.{Combination, time, BeginsAfter, EventsLess, Keeps};
ghost use Rattle.pipe_block.specs.declared.row.Row.{Row as RowOf};
ghost use Rattle.pipe_block.specs.Rows.{Extends};

use crate::row::Row;
use indexmap::IndexSet;
use wx_base::NoMemory;
use xdd_table::{Dd, Table};

/// The position of a row, which is put last if it is not there.
pub fn place_of(rows: &mut IndexSet<Row>, row: Row) -> Result<u64, NoMemory>
    ensures place { IfOk result (λ p. slice_get rows.new.keys p ≡ Some row) }
    ensures rows { Extends rows.old.keys rows.new.keys }
    ensures only { (i : ℕ) (r : RowOf) → slice_get rows.new.keys i ≡ Some r
        → (slice_get rows.old.keys i ≡ Some r) ⊎ (r ≡ row) }
{
    let (position, _) = rows.insert_full(row)?;
    Ok(position as u64)
}

/// The diagram of a plan that leads every combination to a row, which is put last if it is not there.
pub fn arrive(plan: &mut Table, rows: &mut IndexSet<Row>, row: Row) -> Result<Dd, NoMemory>
    ensures each { IfOk result (λ d. (f : Combination) → slice_get rows.new.keys (time plan.new f d.place) ≡ Some row) }
    ensures within { IfOk result (λ d. d.place < length plan.new) }
    ensures after { IfOk result (λ d. (e : ℕ) → BeginsAfter plan.new e d.place) }
    ensures events { IfOk result (λ d. (bound : ℕ) → EventsLess plan.new d.place bound) }
    ensures kept { Keeps plan.old plan.new }
    ensures rows { Extends rows.old.keys rows.new.keys }
    ensures only { (i : ℕ) (r : RowOf) → slice_get rows.new.keys i ≡ Some r
        → (slice_get rows.old.keys i ≡ Some r) ⊎ (r ≡ row) }
{
    let (position, _) = rows.insert_full(row)?;
    plan.leaf(position as u64)
}
