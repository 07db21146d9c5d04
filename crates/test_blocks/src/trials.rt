//! Blocks taken from vectors.

ghost use Rattle.std.specs.Prelude.{◌≡◌, ◌<◌, ◌^◌, ◌∷◌, [], length, IfOk};
ghost use Rattle.wx_base.specs.Machine.{IsMachine};
ghost use Rattle.xdd_table.specs.Diagram.{Keeps};
ghost use Rattle.pipe_block.specs.Events.{IsTimed};
ghost use Rattle.pipe_block.specs.Times.{AreDiagrams};
ghost use Rattle.wx_base.specs.Vector.{AreWithin};

use crate::blocks::{block_of, is_timed};
use crate::machines::machine;
use crate::parts::{combination, pair, push_text};
use crate::vectors::{push_vector, vector_of};
use anyhow::{Context, Result, ensure};
use flow_block::Block;
use pipe_block::{BlockExit, BlockVector, OutcomeList, block, exit, finish, outcomes};
use pipe_time::Vector;
use std::alloc::Global;
use wx_base::Machine;
use xdd_ops::print_diagram;
use xdd_table::{Dd, Table};

/// A block, the vector from which it is taken, and the machine.
#[derive(Drop)]
struct Trial {
    machine: Machine,
    block: Block,
    from: Vector,
}

/// The trial of a case that begins with the machine, the words with commas between them and the vector; and what stands
/// behind these.
fn read_trial(alloc: Global, case: &str) -> Result<(Trial, &str)>
    ensures machine { IfOk result (λ r. IsMachine r.0.machine) }
    ensures timed { IfOk result (λ r. IsTimed r.0.block) }
    ensures small { IfOk result (λ r. AreWithin (10 ^ 18) r.0.from.slots) }
{
    let (name, rest) = pair(case, ' ')?;
    let (words, rest) = pair(rest, ' ')?;
    let (from, rest) = rest.split_once(' ').unwrap_or((rest, ""));
    let machine = machine(alloc, name)?;
    let block = block_of(alloc, words, &machine)?;
    ensure!(is_timed(&block), "the block can't be timed");
    let from = vector_of(from)?;
    Ok((
        Trial {
            machine,
            block,
            from,
        },
        rest,
    ))
}

/// Appends the text of a block's finish diagram.
pub fn push_finish(alloc: Global, out: &mut String, case: &str) -> Result<()> {
    let (trial, _) = read_trial(alloc, case)?;
    let mut table = Table::new(alloc);
    let times = block(&mut table, &trial.from, &trial.block, &trial.machine)?;
    push_diagram(alloc, out, &table, finish(&times))
}

fn push_diagram(alloc: Global, out: &mut String, table: &Table, d: Dd) -> Result<()> {
    ensure!(d.place < table.len(), "there is no such place");
    let mut text = Vec::new(alloc);
    print_diagram(&mut text, table, d)?;
    push_text(out, text.as_slice())
}

/// Appends the time at which the block's last instruction is complete, at each combination.
pub fn push_times(alloc: Global, out: &mut String, case: &str) -> Result<()> {
    let (trial, combinations) = read_trial(alloc, case)?;
    let mut table = Table::new(alloc);
    let times = times_of(&mut table, &trial)?;
    for text in combinations.split(' ') {
        let bits = combination(alloc, text)?;
        push_time(out, &table, &times, bits.as_slice())?;
    }
    Ok(())
}

fn push_time(out: &mut String, table: &Table, times: &BlockVector, bits: &[bool]) -> Result<()>
    requires diagrams { AreDiagrams table.now 12 (times.now.last ∷ times.now.slots) }
    requires long { length bits.now ≡ 12 }
{
    let time = vector_at(table, &times.slots, bits).slots[14];
    write!(out, " {time}")?;
    Ok(())
}

/// The times of a trial.
fn times_of(table: &mut Table, trial: &Trial) -> Result<BlockVector>
    requires machine { IsMachine trial.now.machine }
    requires timed { IsTimed trial.now.block }
    requires small { AreWithin (10 ^ 18) trial.now.from.slots }
    ensures { IfOk result (λ v. AreDiagrams table.new 12 (v.last ∷ v.slots)) }
{
    let times = block(table, &trial.from, &trial.block, &trial.machine)?;
    Ok(times)
}

/// The exit of an edge, `next` or `taken`.
fn exit_of(table: &mut Table, trial: &Trial, edge: &str) -> Result<BlockExit>
    requires machine { IsMachine trial.now.machine }
    requires timed { IsTimed trial.now.block }
    requires small { AreWithin (10 ^ 18) trial.now.from.slots }
    ensures { IfOk result (λ e. AreDiagrams table.new 12 (e.cost ∷ e.slots)) }
{
    ensure!(
        edge == "next" || edge == "taken",
        "an edge is next or taken"
    );
    let times = times_of(table, trial)?;
    let e = exit(table, &times, edge == "taken", &trial.machine)?;
    Ok(e)
}

/// Appends the cost and the vector that an edge hands on, at each combination. Behind the trial stand the edge and the
/// combinations.
pub fn push_exits(alloc: Global, out: &mut String, case: &str) -> Result<()> {
    let (trial, rest) = read_trial(alloc, case)?;
    let (edge, combinations) = pair(rest, ' ')?;
    let mut table = Table::new(alloc);
    let exit = exit_of(&mut table, &trial, edge)?;
    for text in combinations.split(' ') {
        let bits = combination(alloc, text)?;
        push_exit(out, &table, &exit, bits.as_slice())?;
    }
    Ok(())
}

fn push_exit(out: &mut String, table: &Table, exit: &BlockExit, bits: &[bool]) -> Result<()>
    requires diagrams { AreDiagrams table.now 12 (exit.now.cost ∷ exit.now.slots) }
    requires long { length bits.now ≡ 12 }
{
    let cost = table.time(exit.cost, bits);
    write!(out, " {cost}/")?;
    push_vector(out, &vector_at(table, &exit.slots, bits))
}

/// The vector of diagrams at a combination.
fn vector_at(table: &Table, slots: &[Dd; 35], bits: &[bool]) -> Vector
    requires diagrams { AreDiagrams table.now 12 slots.now }
    requires long { length bits.now ≡ 12 }
{
    let mut vector = Vector::zero();
    for k in 0..35 {
        vector.slots[k] = table.time(slots[k], bits);
    }
    vector
}

/// The outcomes of an edge, `next` or `taken`.
fn outcomes_of(table: &mut Table, trial: &Trial, edge: &str) -> Result<OutcomeList>
    requires machine { IsMachine trial.now.machine }
    requires timed { IsTimed trial.now.block }
    requires small { AreWithin (10 ^ 18) trial.now.from.slots }
    ensures { IfOk result (λ o. AreDiagrams table.new 12 (o.place ∷ [])) }
{
    let e = exit_of(table, trial, edge)?;
    let found = outcomes(table, &e)?;
    Ok(found)
}

/// Appends how many different outcomes an edge has, and the one to which each combination leads. The case is as that of
/// an exit.
pub fn push_outcomes(alloc: Global, out: &mut String, case: &str) -> Result<()> {
    let (trial, rest) = read_trial(alloc, case)?;
    let (edge, combinations) = pair(rest, ' ')?;
    let mut table = Table::new(alloc);
    let found = outcomes_of(&mut table, &trial, edge)?;
    let count = found.list.len();
    write!(out, " {count}")?;
    for text in combinations.split(' ') {
        let bits = combination(alloc, text)?;
        push_outcome(out, &table, &found, bits.as_slice())?;
    }
    Ok(())
}

fn push_outcome(out: &mut String, table: &Table, found: &OutcomeList, bits: &[bool]) -> Result<()>
    requires diagrams { AreDiagrams table.now 12 (found.now.place ∷ []) }
    requires long { length bits.now ≡ 12 }
{
    let place = table.time(found.place, bits);
    let outcome = found
        .list
        .as_slice()
        .get(place as usize)
        .context("there is no such outcome")?;
    let cost = outcome.cost;
    write!(out, " {cost}/")?;
    push_vector(out, &outcome.vector)
}
