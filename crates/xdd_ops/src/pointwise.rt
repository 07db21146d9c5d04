ghost use Rattle.std.specs.Prelude.{◌≡◌, ℕ, ◌+◌, ◌-◌, ◌*◌, ◌<◌, ◌≤◌, ◌^◌, true, length, IfOk};
ghost use Rattle.std.specs.Prelude.{max as greater};
ghost use Rattle.xdd_table.specs.Diagram.{Combination, time, BeginsAfter, EventsLess, Keeps};
ghost use Rattle.xdd_table.specs.Order.{IsSize};

use crate::memo::apply;
use crate::operation::Operation;
use crate::steps::Steps;
use std::sync::ledger::Ledger;
use wx_text::NoMemory;
use xdd_table::{Dd, Node, Table};

#[derive(Drop)]
struct Maximum;

impl Operation for Maximum {
    ghost gives = { λ s a b r. r ≡ greater a b };

    ghost can = { λ s a b. Unit {0} };

    fn of_leaves(&mut self, a: u64, b: u64) -> Result<u64, NoMemory> {
        Ok(a.max(b))
    }

    // one diagram twice, or one that is 0 everywhere
    fn shortcut(&self, table: &Table, pair: (Dd, Dd)) -> Option<Dd> {
        if pair.0 == pair.1 || is_zero(table, pair.1) {
            return Some(pair.0);
        }
        is_zero(table, pair.0).then_some(pair.1)
    }
}

#[derive(Drop)]
struct Sum;

impl Operation for Sum {
    ghost gives = { λ s a b r. r ≡ a + b };

    ghost can = { λ s a b. a + b < 2 ^ 64 };

    fn of_leaves(&mut self, a: u64, b: u64) -> Result<u64, NoMemory> {
        Ok(a + b)
    }

    // one that is 0 everywhere
    fn shortcut(&self, table: &Table, pair: (Dd, Dd)) -> Option<Dd> {
        if is_zero(table, pair.1) {
            return Some(pair.0);
        }
        is_zero(table, pair.0).then_some(pair.1)
    }
}

#[derive(Drop)]
struct Difference;

impl Operation for Difference {
    ghost gives = { λ s a b r. r ≡ a - b };

    ghost can = { λ s a b. Unit {0} };

    fn of_leaves(&mut self, a: u64, b: u64) -> Result<u64, NoMemory> {
        Ok(a.saturating_sub(b))
    }

    // nothing is taken off, or there is nothing to take off from
    fn shortcut(&self, table: &Table, pair: (Dd, Dd)) -> Option<Dd> {
        (is_zero(table, pair.0) || is_zero(table, pair.1)).then_some(pair.0)
    }
}

/// Whether the diagram is the leaf 0.
fn is_zero(table: &Table, d: Dd) -> bool
    requires { d.place < length table.now }
    ensures { result ≡ true → (f : Combination) → time table.now f d.place ≡ 0 }
{
    matches!(table.node(d), Node::Leaf { time: 0 })
}

/// The diagram whose time is the greater of the two times, at every combination.
///
/// A step is one pair of places that is taken apart, and each pair is taken apart once.
pub fn max<L: Ledger>(table: &mut Table, a: Dd, b: Dd, steps: &mut Steps<L>) -> Result<Dd, NoMemory>
    requires first { a.place < length table.old }
    requires second { b.place < length table.old }
    ensures times { IfOk result (λ d. (f : Combination)
        → time table.new f d.place ≡ greater (time table.old f a.place) (time table.old f b.place)) }
    ensures within { IfOk result (λ d. d.place < length table.new) }
    ensures after { IfOk result (λ d. (e : ℕ) → BeginsAfter table.old e a.place → BeginsAfter table.old e b.place
        → BeginsAfter table.new e d.place) }
    ensures events { IfOk result (λ d. (bound : ℕ) → EventsLess table.old a.place bound
        → EventsLess table.old b.place bound → EventsLess table.new d.place bound) }
    ensures kept { Keeps table.old table.new }
    ensures steps { (m n : ℕ) → IsSize table.old a.place m → IsSize table.old b.place n
        → steps.new ≤ steps.old + m * n }
    ensures counted { steps.old ≤ steps.new }
{
    apply(table, (a, b), &mut Maximum, steps)
}

/// The diagram whose time is the sum of the two times, at every combination.
///
/// No time of `a` and time of `b` may sum past 64 bits. A step is one pair of places that is taken apart, and each pair
/// is taken apart once.
pub fn plus<L: Ledger>(
    table: &mut Table,
    a: Dd,
    b: Dd,
    steps: &mut Steps<L>,
) -> Result<Dd, NoMemory>
    requires first { a.place < length table.old }
    requires second { b.place < length table.old }
    requires fits { (f g : Combination) → time table.old f a.place + time table.old g b.place < 2 ^ 64 }
    ensures times { IfOk result (λ d. (f : Combination)
        → time table.new f d.place ≡ time table.old f a.place + time table.old f b.place) }
    ensures within { IfOk result (λ d. d.place < length table.new) }
    ensures after { IfOk result (λ d. (e : ℕ) → BeginsAfter table.old e a.place → BeginsAfter table.old e b.place
        → BeginsAfter table.new e d.place) }
    ensures events { IfOk result (λ d. (bound : ℕ) → EventsLess table.old a.place bound
        → EventsLess table.old b.place bound → EventsLess table.new d.place bound) }
    ensures kept { Keeps table.old table.new }
    ensures steps { (m n : ℕ) → IsSize table.old a.place m → IsSize table.old b.place n
        → steps.new ≤ steps.old + m * n }
    ensures counted { steps.old ≤ steps.new }
{
    apply(table, (a, b), &mut Sum, steps)
}

/// The diagram whose time is the first time less the second, or 0 where that is greater, at every combination.
///
/// A step is one pair of places that is taken apart, and each pair is taken apart once.
pub fn minus<L: Ledger>(
    table: &mut Table,
    a: Dd,
    b: Dd,
    steps: &mut Steps<L>,
) -> Result<Dd, NoMemory>
    requires first { a.place < length table.old }
    requires second { b.place < length table.old }
    ensures times { IfOk result (λ d. (f : Combination)
        → time table.new f d.place ≡ time table.old f a.place - time table.old f b.place) }
    ensures within { IfOk result (λ d. d.place < length table.new) }
    ensures after { IfOk result (λ d. (e : ℕ) → BeginsAfter table.old e a.place → BeginsAfter table.old e b.place
        → BeginsAfter table.new e d.place) }
    ensures events { IfOk result (λ d. (bound : ℕ) → EventsLess table.old a.place bound
        → EventsLess table.old b.place bound → EventsLess table.new d.place bound) }
    ensures kept { Keeps table.old table.new }
    ensures steps { (m n : ℕ) → IsSize table.old a.place m → IsSize table.old b.place n
        → steps.new ≤ steps.old + m * n }
    ensures counted { steps.old ≤ steps.new }
{
    apply(table, (a, b), &mut Difference, steps)
}
