//! What a vector offers: its potential, and what misses are charged, as a diagram over the events of its block.

ghost use Rattle.std.specs.Prelude.{◌≡◌, ℕ, ◌+◌, ◌<◌, ◌≤◌, ◌^◌, length, drop, IfOk, if◌then◌else◌};
ghost use Rattle.xdd_table.specs.Diagram.{Combination, time, Keeps};
ghost use Rattle.cert_judge.specs.Offers.{charge_of, charged_from, AreSmallCharges, IsCharged};

use cache_class::Class;
use std::marker::Brand;
use std::sync::ledger::{Blank, Ledger};
use wx_base::NoMemory;
use xdd_ops::{Steps, plus};
use xdd_table::{Dd, Table};

/// What a vector of a certificate has to pay with.
#[derive(Clone, Copy)]
pub struct Offer<'a> {
    /// The classes of the events of its block, by their numbers.
    pub classes: &'a [Class],
    /// What the misses of its block are charged, in cycles: [`charged`] makes it.
    pub charged: Dd,
    /// The vector's potential, in cycles.
    pub potential: u64,
}

/// What a miss of an event of the class is charged.
fn miss_charge(class: &Class, charge: u64) -> u64
    ensures { result ≡ charge_of class.now charge }
{
    match class {
        Class::FirstMiss { .. } => charge,
        Class::AlwaysHit | Class::AlwaysMiss | Class::Open => 0,
    }
}

/// The sum of two diagrams.
fn sum(table: &mut Table, a: Dd, b: Dd) -> Result<Dd, NoMemory>
    requires first { a.place < length table.old }
    requires second { b.place < length table.old }
    requires fits { (f g : Combination) → time table.old f a.place + time table.old g b.place < 2 ^ 64 }
    ensures times { IfOk result (λ d. (f : Combination)
        → time table.new f d.place ≡ time table.old f a.place + time table.old f b.place) }
    ensures within { IfOk result (λ d. d.place < length table.new) }
    ensures kept { Keeps table.old table.new }
{
    sum_in::<Brand>(table, a, b, Blank::new(1))
}

/// The sum, whose steps are counted in a ledger that nobody looks at.
fn sum_in<L: Ledger>(table: &mut Table, a: Dd, b: Dd, blank: Blank) -> Result<Dd, NoMemory>
    requires name { blank.name ≡ L.name }
    requires parts { blank.parts ≡ L.parts }
    requires some { 0 < blank.parts }
    requires first { a.place < length table.old }
    requires second { b.place < length table.old }
    requires fits { (f g : Combination) → time table.old f a.place + time table.old g b.place < 2 ^ 64 }
    ensures times { IfOk result (λ d. (f : Combination)
        → time table.new f d.place ≡ time table.old f a.place + time table.old f b.place) }
    ensures within { IfOk result (λ d. d.place < length table.new) }
    ensures kept { Keeps table.old table.new }
{
    plus(table, a, b, &mut Steps::<L>::new(blank))
}

/// The diagram that is the charge where the event misses, and 0 where it hits.
fn charge_at(table: &mut Table, event: u32, charge: u64) -> Result<Dd, NoMemory>
    ensures times { IfOk result (λ d. (f : Combination)
        → time table.new f d.place ≡ (if f event then charge else 0)) }
    ensures within { IfOk result (λ d. d.place < length table.new) }
    ensures kept { Keeps table.old table.new }
{
    let hit = table.leaf(0)?;
    let miss = table.leaf(charge)?;
    table.branch(event, hit, miss)
}

/// The diagram with the charge of an event added where the event misses.
fn with_charge(table: &mut Table, rest: Dd, event: u32, charge: u64) -> Result<Dd, NoMemory>
    requires rest { rest.place < length table.old }
    requires fits { (f : Combination) → time table.old f rest.place + charge < 2 ^ 64 }
    ensures times { IfOk result (λ d. (f : Combination)
        → time table.new f d.place ≡ (if f event then charge else 0) + time table.old f rest.place) }
    ensures within { IfOk result (λ d. d.place < length table.new) }
    ensures kept { Keeps table.old table.new }
{
    if charge == 0 {
        return Ok(rest);
    }
    let charged = charge_at(table, event, charge)?;
    sum(table, rest, charged)
}

/// The diagram of what the misses are charged, from an event on.
fn charged_on(
    table: &mut Table,
    classes: &[Class],
    charges: &[u64],
    number: usize,
) -> Result<Dd, NoMemory>
    requires charges { AreSmallCharges classes.now charges.now }
    requires number { number ≤ length classes.now }
    ensures times { IfOk result (λ d. (f : Combination)
        → time table.new f d.place ≡ charged_from charges.now number f (drop number classes.now)) }
    ensures within { IfOk result (λ d. d.place < length table.new) }
    ensures kept { Keeps table.old table.new }
{
    if number == classes.len() {
        return table.leaf(0);
    }
    let rest = charged_on(table, classes, charges, number + 1)?;
    let charge = miss_charge(&classes[number], charges[number]);
    with_charge(table, rest, number as u32, charge)
}

/// The diagram of what the misses of a block are charged, where its events have these classes and a miss of each is
/// charged this, in cycles: it counts for first misses alone.
///
/// The only error is want of memory. Diagrams of the table keep their meaning.
pub fn charged(table: &mut Table, classes: &[Class], charges: &[u64]) -> Result<Dd, NoMemory>
    requires { AreSmallCharges classes.now charges.now }
    ensures times { IfOk result (λ d. (f : Combination)
        → time table.new f d.place ≡ charged_from charges.now 0 f classes.now) }
    ensures charged { IfOk result (IsCharged table.new classes.now) }
    ensures kept { Keeps table.old table.new }
{
    charged_on(table, classes, charges, 0)
}
