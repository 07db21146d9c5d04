//! The rises of one cost by misses of the events of a block.

ghost use Rattle.std.specs.Prelude.{◌≡◌, ℕ, ◌<◌, length, slice_get, Some, OnOk};
ghost use Rattle.xdd_table.specs.Diagram.{Combination, time, Keeps};
ghost use Rattle.state_charges.specs.declared.miss.Miss.{Miss as MissOf};
ghost use Rattle.state_charges.specs.Raising.{IsEarly, IsEventRise, IsListedRise, Raises};

use crate::miss::Miss;
use wx_text::NoMemory;
use xdd_ops::rise;
use xdd_table::{Dd, Table};

/// Raises the amount at a position to a number, if it is less.
fn raise(amounts: &mut [u64], position: usize, number: u64)
    requires { position < length amounts.old }
    ensures { Raises (λ i n. (i ≡ position) × (n ≡ number)) amounts.old amounts.new }
{
    amounts[position] = amounts[position].max(number);
}

/// Raises the amount of an event's group to the greatest rise of a cost by its miss.
fn raise_event(
    table: &mut Table,
    cost: Dd,
    miss: &Miss,
    amounts: &mut [u64],
) -> Result<(), NoMemory>
    requires cost { cost.place < length table.old }
    requires group { miss.now.group < length amounts.old }
    ensures raises { OnOk result (Raises (IsEventRise (λ f. time table.old f cost.place) miss.now)
        amounts.old amounts.new) }
    ensures kept { Keeps table.old table.new }
{
    let most = rise(table, cost, miss.event)?;
    raise(amounts, miss.group, most);
    Ok(())
}

/// Raises the amounts of the groups of some events to the greatest rises of a cost by their misses.
pub(crate) fn raise_events(
    table: &mut Table,
    cost: Dd,
    misses: &[Miss],
    amounts: &mut [u64],
) -> Result<(), NoMemory>
    requires cost { cost.place < length table.old }
    requires groups { (k : ℕ) (x : MissOf) → slice_get misses.now k ≡ Some x → x.group < length amounts.old }
    ensures raises { OnOk result (Raises
        (IsEarly (IsListedRise (λ f. time table.old f cost.place) misses.now) (length misses.now))
        amounts.old amounts.new) }
    ensures kept { Keeps table.old table.new }
{
    for k in 0..misses.len() {
        raise_event(table, cost, &misses[k], amounts)?;
    }
    Ok(())
}
