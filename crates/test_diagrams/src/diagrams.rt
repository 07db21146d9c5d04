//! Operations on the diagrams of a table, each with the tests that it asks for.

ghost use Rattle.std.specs.Prelude.{◌≡◌, ◌<◌, length};

use anyhow::{Result, ensure};
use std::marker::Brand;
use std::sync::ledger::{Blank, Ledger};
use xdd_ops::{Steps, greatest, max, minus, plus, replace};
use xdd_table::{Dd, Table};

/// An operation on two diagrams that counts its steps.
#[derive(Clone, Copy)]
pub enum Pointwise {
    Max,
    Plus,
    Minus,
}

/// A branch of two diagrams that begin after its event.
pub fn branch(table: &mut Table, event: u32, hit: Dd, miss: Dd) -> Result<Dd> {
    ensure!(
        hit.place < table.len() && miss.place < table.len(),
        "there is no such place"
    );
    ensure!(
        table.begins_after(event, hit) && table.begins_after(event, miss),
        "event {event} does not come first"
    );
    Ok(table.branch(event, hit, miss)?)
}

/// The diagram of the events from 1 to `last` that is `even` where an even number of them misses, else `odd`.
pub fn parity(table: &mut Table, last: u32, even: Dd, odd: Dd) -> Result<Dd> {
    ensure!(last < 1_000, "there are too many events");
    let mut even = even;
    let mut odd = odd;
    for event in (1..last + 1).rev() {
        let next = branch(table, event, even, odd)?;
        odd = branch(table, event, odd, even)?;
        even = next;
    }
    Ok(even)
}

/// The time at a combination of the branch at an event of the leaves 5 and 7.
pub fn time_of_branch(table: &mut Table, event: u32, combination: &[bool]) -> Result<u64> {
    ensure!(
        (event as usize) < combination.len(),
        "the combination is too short"
    );
    let five = table.leaf(5)?;
    let seven = table.leaf(7)?;
    let both = table.branch(event, five, seven)?;
    Ok(table.time(both, combination))
}

/// The answer of an operation on two diagrams of the table.
pub fn apply(table: &mut Table, operation: Pointwise, a: Dd, b: Dd) -> Result<Dd> {
    counted::<Brand>(table, operation, a, b, Blank::new(1))
}

fn counted<L: Ledger>(
    table: &mut Table,
    operation: Pointwise,
    a: Dd,
    b: Dd,
    blank: Blank,
) -> Result<Dd>
    requires name { blank.name ≡ L.name }
    requires parts { blank.parts ≡ L.parts }
    requires some { 0 < blank.parts }
{
    ensure!(
        a.place < table.len() && b.place < table.len(),
        "there is no such place"
    );
    let mut steps = Steps::<L>::new(blank);
    match operation {
        Pointwise::Max => Ok(max(table, a, b, &mut steps)?),
        Pointwise::Plus => sum(table, a, b, &mut steps),
        Pointwise::Minus => Ok(minus(table, a, b, &mut steps)?),
    }
}

/// The sum of two diagrams, whose times are to be small.
fn sum<L: Ledger>(table: &mut Table, a: Dd, b: Dd, steps: &mut Steps<L>) -> Result<Dd>
    requires first { a.place < length table.old }
    requires second { b.place < length table.old }
{
    let most = greatest(table, a)?;
    let other = greatest(table, b)?;
    ensure!(most < 1 << 62 && other < 1 << 62, "the times are too large");
    Ok(plus(table, a, b, steps)?)
}

/// The sum of a diagram and another, made a number of times, each time anew.
pub fn again(table: &mut Table, times: u32, a: Dd, b: Dd) -> Result<Dd> {
    let mut answer = a;
    for _ in 0..times {
        answer = apply(table, Pointwise::Plus, a, b)?;
    }
    Ok(answer)
}

/// The diagram with each time put in place of its position, which is to be one of the list.
pub fn replaced(table: &mut Table, d: Dd, times: &[u64]) -> Result<Dd> {
    ensure!(d.place < table.len(), "there is no such place");
    let most = greatest(table, d)?;
    ensure!(most < times.len() as u64, "there are too few times");
    Ok(replace(table, d, times)?)
}
