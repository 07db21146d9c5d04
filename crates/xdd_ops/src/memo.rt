ghost use Rattle.std.specs.Prelude.{◌≡◌, ℕ, ◌+◌, ◌*◌, ◌<◌, ◌≤◌, length, IfOk, OnOk};
ghost use Rattle.indexmap.specs.IndexMap.{get, index_map_len, IsUnique};
ghost use Rattle.xdd_table.specs.Diagram.{Combination, time, BeginsAfter, EventsLess, IsTable, Keeps};
ghost use Rattle.xdd_table.specs.Order.{IsSize};
ghost use Rattle.xdd_ops.specs.Given.{same_places};
ghost use Rattle.xdd_ops.specs.Cofactors.{IsSplit};
ghost use Rattle.xdd_ops.specs.Pairs.{IsPairOf};
ghost use Rattle.xdd_ops.specs.Answers.{IsAnswer, AreAnswers, KeepsBelow, Stays, GivesMore, Passes};

use crate::cofactors::{Expansion, Split, expand};
use crate::operation::Operation;
use crate::steps::Steps;
use indexmap::IndexMap;
use std::sync::ledger::Ledger;
use wx_text::NoMemory;
use xdd_table::{Dd, Table};

/// The diagram whose time at each combination is what the operation makes of the two times.
///
/// A step is one pair of places that is taken apart. Each pair that meets is taken apart once, so the time is at most
/// about the product of the two sizes. Where no other pair than the first has an event, no memory is taken but the
/// table's.
pub fn apply<O: Operation, L: Ledger>(
    table: &mut Table,
    pair: (Dd, Dd),
    operation: &mut O,
    steps: &mut Steps<L>,
) -> Result<Dd, NoMemory>
    requires first { pair.0.place < length table.old }
    requires second { pair.1.place < length table.old }
    requires can { (f g : Combination) → O.can operation.old (time table.old f pair.0.place)
        (time table.old g pair.1.place) }
    ensures times { IfOk result (λ d. (f : Combination)
        → O.gives operation.new (time table.old f pair.0.place) (time table.old f pair.1.place)
        (time table.new f d.place)) }
    ensures within { IfOk result (λ d. d.place < length table.new) }
    ensures after { IfOk result (λ d. (e : ℕ) → BeginsAfter table.old e pair.0.place
        → BeginsAfter table.old e pair.1.place → BeginsAfter table.new e d.place) }
    ensures events { IfOk result (λ d. (bound : ℕ) → EventsLess table.old pair.0.place bound
        → EventsLess table.old pair.1.place bound → EventsLess table.new d.place bound) }
    ensures kept { Keeps table.old table.new }
    ensures stays { Stays (O.gives operation.old) (O.gives operation.new) }
    ensures only { GivesMore (O.gives operation.old) (O.gives operation.new)
        (IsPairOf table.old pair.0.place pair.1.place) }
    ensures steps { (m n : ℕ) → IsSize table.old pair.0.place m → IsSize table.old pair.1.place n
        → steps.new ≤ steps.old + m * n }
    ensures counted { steps.old ≤ steps.new }
{
    if let Some(answer) = operation.shortcut(table, pair) {
        return Ok(answer);
    }
    match expand(table, pair) {
        Expansion::Leaves(t, u) => {
            let time = operation.of_leaves(t, u)?;
            table.leaf(time)
        }
        Expansion::Branches(split) => {
            let mut answers = IndexMap::new(table.allocator());
            join(table, split, operation, &mut answers, steps)
        }
    }
}

/// The answer for a pair that is met below the first one. Where it was met before, it is the one that was kept.
///
/// Leaves and answers that show at the roots are not kept, since they are found as fast again.
#[cycle(pairs)]
fn meet<O: Operation, L: Ledger>(
    table: &mut Table,
    pair: (Dd, Dd),
    operation: &mut O,
    answers: &mut IndexMap<(usize, usize), Dd>,
    steps: &mut Steps<L>,
) -> Result<Dd, NoMemory>
    requires first { pair.0.place < length table.old }
    requires second { pair.1.place < length table.old }
    requires can { (f g : Combination) → O.can operation.old (time table.old f pair.0.place)
        (time table.old g pair.1.place) }
    requires table { IsTable table.old }
    requires memo { AreAnswers table.old (O.gives operation.old) (get same_places answers.old) }
    requires unique { IsUnique same_places answers.old }
    ensures answer { IfOk result (λ d. IsAnswer table.new (O.gives operation.new) pair.0.place pair.1.place d.place) }
    ensures memo { OnOk result (AreAnswers table.new (O.gives operation.new) (get same_places answers.new)) }
    ensures unique { IsUnique same_places answers.new }
    ensures below { KeepsBelow table.old pair.0.place pair.1.place (pair.0.place + pair.1.place + 1)
        (get same_places answers.old) (get same_places answers.new) }
    ensures passes { Passes table.old table.new (O.gives operation.old) (O.gives operation.new) (O.can operation.old)
        (O.can operation.new) pair.0.place pair.1.place }

    // each pair that was taken apart is kept, and has its step
    ensures steps { OnOk result (steps.new + index_map_len answers.old ≡ steps.old + index_map_len answers.new) }
    ensures bound { steps.new + index_map_len answers.old ≤ steps.old + index_map_len answers.new + 1 }
    ensures counted { steps.old ≤ steps.new }
{
    if let Some(answer) = operation.shortcut(table, pair) {
        return Ok(answer);
    }
    match expand(table, pair) {
        Expansion::Leaves(t, u) => {
            let time = operation.of_leaves(t, u)?;
            table.leaf(time)
        }
        Expansion::Branches(split) => {
            let places = (pair.0.place, pair.1.place);
            if let Some(known) = answers.get(&places) {
                return Ok(*known);
            }
            let answer = join(table, split, operation, answers, steps)?;
            answers.insert(places, answer)?;
            Ok(answer)
        }
    }
}

/// The answer for a pair that was taken apart, from those for its two halves. It counts one step.
#[cycle(pairs)]
fn join<O: Operation, L: Ledger>(
    table: &mut Table,
    split: Split,
    operation: &mut O,
    answers: &mut IndexMap<(usize, usize), Dd>,
    steps: &mut Steps<L>,
) -> Result<Dd, NoMemory>
    requires first { split.pair.0.place < length table.old }
    requires second { split.pair.1.place < length table.old }
    requires parts { IsSplit table.old split.pair.0.place split.pair.1.place split.event split.hits split.misses }
    requires can { (f g : Combination) → O.can operation.old (time table.old f split.pair.0.place)
        (time table.old g split.pair.1.place) }
    requires table { IsTable table.old }
    requires memo { AreAnswers table.old (O.gives operation.old) (get same_places answers.old) }
    requires unique { IsUnique same_places answers.old }
    ensures answer { IfOk result (λ d. IsAnswer table.new
        (O.gives operation.new) split.pair.0.place split.pair.1.place d.place) }
    ensures memo { OnOk result (AreAnswers table.new (O.gives operation.new) (get same_places answers.new)) }
    ensures unique { IsUnique same_places answers.new }
    ensures below { KeepsBelow table.old split.pair.0.place split.pair.1.place (split.pair.0.place + split.pair.1.place)
        (get same_places answers.old) (get same_places answers.new) }
    ensures passes { Passes table.old table.new (O.gives operation.old) (O.gives operation.new) (O.can operation.old)
        (O.can operation.new) split.pair.0.place split.pair.1.place }

    // each pair that was taken apart is kept but this one, and has its step
    ensures steps { OnOk result (steps.new + index_map_len answers.old ≡ steps.old + index_map_len answers.new + 1) }
    ensures bound { steps.new + index_map_len answers.old ≤ steps.old + index_map_len answers.new + 1 }
    ensures counted { steps.old ≤ steps.new }
{
    let hit = meet(table, split.hits, operation, answers, steps)?;
    let miss = meet(table, split.misses, operation, answers, steps)?;
    let answer = table.branch(split.event, hit, miss)?;
    steps.tick();
    Ok(answer)
}
