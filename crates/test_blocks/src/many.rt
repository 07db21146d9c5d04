//! Blocks taken from many vectors, to try how fast that goes.

ghost use Rattle.std.specs.Prelude.{◌^◌, IfOk};
ghost use Rattle.wx_base.specs.Machine.{IsMachine};
ghost use Rattle.wx_base.specs.Vector.{AreWithin};
ghost use Rattle.pipe_block.specs.Events.{IsTimed};

use crate::blocks::{block_of, is_timed};
use crate::machines::machine;
use crate::parts::pair;
use crate::vectors::is_small;
use anyhow::{Result, ensure};
use flow_block::Block;
use pipe_block::{block, exit, finish, outcomes};
use pipe_time::Vector;
use std::alloc::Global;
use wx_base::Machine;
use xdd_table::Table;

/// Takes a block from so many different vectors, each with its finish, one edge and the outcomes of that edge, and appends
/// how many outcomes there are in all. The case is the number of vectors, the machine and the words with commas between
/// them.
pub fn push_total(alloc: Global, out: &mut String, case: &str) -> Result<()> {
    let (count, case) = pair(case, ' ')?;
    let (name, words) = pair(case, ' ')?;
    let count: u32 = count.parse()?;
    let machine = machine(alloc, name)?;
    let block = block_of(alloc, words, &machine)?;
    ensure!(is_timed(&block), "the block can't be timed");
    let mut table = Table::new(alloc);
    let mut total: u64 = 0;
    for number in 0..count {
        total = total.saturating_add(count_outcomes(&mut table, number, &block, &machine)?);
    }
    write!(out, " {total}")?;
    Ok(())
}

/// How many outcomes the block's edge to the next has from the vector with a number.
fn count_outcomes(table: &mut Table, number: u32, b: &Block, machine: &Machine) -> Result<u64>
    requires timed { IsTimed b.now }
    requires machine { IsMachine machine.now }
{
    let times = block(table, &numbered_vector(number)?, b, machine)?;
    let _ = finish(&times);
    let next = exit(table, &times, false, machine)?;
    let found = outcomes(table, &next)?;
    Ok(found.list.len() as u64)
}

/// The vector with a number, another for each: the memory unit and r1 are ready at different times.
fn numbered_vector(number: u32) -> Result<Vector>
    ensures { IfOk result (λ vector. AreWithin (10 ^ 18) vector.slots) }
{
    let mut vector = Vector::zero();
    vector.slots[18] = u64::from(number % 16);
    vector.slots[20] = u64::from(number / 16);
    ensure!(is_small(&vector), "times are at most 10^18");
    Ok(vector)
}
