ghost use Rattle.std.specs.Prelude.{◌≡◌, ℕ, ◌<◌, List, [], length, slice_get, Some, IfOk};
ghost use Rattle.xdd_table.specs.Diagram.{Combination, time, BeginsAfter, EventsLess, Keeps};
ghost use Rattle.xdd_ops.specs.Pairs.{Extends, AddsOnly, IsPairOf};

use crate::memo::apply;
use crate::operation::Operation;
use crate::steps::Steps;
use indexmap::IndexSet;
use std::alloc::Global;
use std::marker::{Brand, Model};
use std::sync::ledger::{Blank, Ledger};
use wx_text::NoMemory;
use xdd_table::{Dd, Table};

/// Pairs of times, each kept once at a position of its own.
#[derive(Drop)]
pub struct Pairs {
    pairs: IndexSet<(u64, u64)>,
}

impl Model for Pairs {
    ghost Value = { List (ℕ × ℕ) };

    ghost view = { λ p. p.pairs.keys };
}

impl Pairs {
    /// No pairs.
    pub fn new(alloc: Global) -> Self
        ensures { result ≡ [] }
    {
        Pairs {
            pairs: IndexSet::new(alloc),
        }
    }

    /// The number of pairs. No pair stands at two positions.
    pub fn len(&self) -> usize
        ensures count { result ≡ length self.now }
        ensures once { (i j : ℕ) (x : ℕ × ℕ) → slice_get self.now i ≡ Some x → slice_get self.now j ≡ Some x → i ≡ j }
    {
        self.pairs.len()
    }

    /// The pair at a position, `None` past the last.
    pub fn get(&self, i: u64) -> Option<(u64, u64)>
        ensures { result ≡ slice_get self.now i }
    {
        self.pairs.get_index(i as usize).copied()
    }
}

impl Operation for Pairs {
    ghost gives = { λ s a b r. slice_get s r ≡ Some (a, b) };

    ghost can = { λ s a b. Unit {0} };

    fn of_leaves(&mut self, a: u64, b: u64) -> Result<u64, NoMemory> {
        let (position, _) = self.pairs.insert_full((a, b))?;
        Ok(position as u64)
    }

    fn shortcut(&self, _: &Table, _: (Dd, Dd)) -> Option<Dd> {
        None
    }
}

/// The diagram whose time at each combination is the position in `pairs` of the pair of the two times.
///
/// Each pair of places that meets is taken apart once.
pub fn zip(table: &mut Table, a: Dd, b: Dd, pairs: &mut Pairs) -> Result<Dd, NoMemory>
    requires first { a.place < length table.old }
    requires second { b.place < length table.old }
    ensures times { IfOk result (λ d. (f : Combination)
        → slice_get pairs.new (time table.new f d.place) ≡ Some (time table.old f a.place, time table.old f b.place)) }
    ensures within { IfOk result (λ d. d.place < length table.new) }
    ensures after { IfOk result (λ d. (e : ℕ) → BeginsAfter table.old e a.place → BeginsAfter table.old e b.place
        → BeginsAfter table.new e d.place) }
    ensures events { IfOk result (λ d. (bound : ℕ) → EventsLess table.old a.place bound
        → EventsLess table.old b.place bound → EventsLess table.new d.place bound) }
    ensures kept { Keeps table.old table.new }
    ensures pairs { Extends pairs.old pairs.new }
    ensures only { AddsOnly pairs.old pairs.new (IsPairOf table.old a.place b.place) }
{
    zip_in::<Brand>(table, (a, b), pairs, Blank::new(1))
}

/// `zip`, which counts its steps in a ledger that nobody looks at.
fn zip_in<L: Ledger>(
    table: &mut Table,
    pair: (Dd, Dd),
    pairs: &mut Pairs,
    blank: Blank,
) -> Result<Dd, NoMemory>
    requires name { blank.name ≡ L.name }
    requires parts { blank.parts ≡ L.parts }
    requires some { 0 < blank.parts }
    requires first { pair.0.place < length table.old }
    requires second { pair.1.place < length table.old }
    ensures times { IfOk result (λ d. (f : Combination)
        → slice_get pairs.new (time table.new f d.place) ≡ Some
        (time table.old f pair.0.place, time table.old f pair.1.place)) }
    ensures within { IfOk result (λ d. d.place < length table.new) }
    ensures after { IfOk result (λ d. (e : ℕ) → BeginsAfter table.old e pair.0.place
        → BeginsAfter table.old e pair.1.place → BeginsAfter table.new e d.place) }
    ensures events { IfOk result (λ d. (bound : ℕ) → EventsLess table.old pair.0.place bound
        → EventsLess table.old pair.1.place bound → EventsLess table.new d.place bound) }
    ensures kept { Keeps table.old table.new }
    ensures pairs { Extends pairs.old pairs.new }
    ensures only { AddsOnly pairs.old pairs.new (IsPairOf table.old pair.0.place pair.1.place) }
{
    apply(table, pair, pairs, &mut Steps::<L>::new(blank))
}
