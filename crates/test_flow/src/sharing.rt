//! Blocks of nodes, taken from the vector of an empty pipeline.

ghost use Rattle.std.specs.Prelude.{◌≡◌, ◌<◌, ◌^◌, length, slice_get, Some};
ghost use Rattle.wx_base.specs.Machine.{IsMachine};
ghost use Rattle.wx_base.specs.Vector.{AreWithin};
ghost use Rattle.flow_ctx.specs.Laws.{IsUnfoldedOn};
ghost use Rattle.pipe_time.specs.declared.vector.Vector.{Vector as VectorOf};
ghost use Rattle.pipe_block.specs.Kept.{AreEndsRight};

use crate::parts::{number, pair};
use crate::programs::{program_of, push_refusal};
use crate::unfoldings::push_unfold_error;
use anyhow::{Result, ensure};
use flow_ctx::{Unfolded, unfold};
use pipe_block::{EndMemo, Site, finish_at, kept_answers_stay, leave_at};
use pipe_time::{Vector, VectorPool};
use std::alloc::Global;
use wx_base::Machine;
use wx_text::NoMemory;
use xdd_table::{Dd, Table};

/// Appends whether the blocks of two nodes share their answers: the finish, and what is handed on where the last
/// instruction jumps and where it does not. The case is the two numbers of the nodes and the program.
pub fn push_shared(alloc: Global, out: &mut String, case: &str) -> Result<()> {
    let (numbers, case) = pair(case, " | ")?;
    let (first, second) = pair(numbers, " ")?;
    let nodes = [
        u32::try_from(number(first)?)?,
        u32::try_from(number(second)?)?,
    ];
    let machine = Machine::m1(alloc);
    match program_of(alloc, case, &machine)? {
        Ok(program) => match unfold(alloc, program) {
            Ok(unfolded) => push_places(alloc, out, &unfolded, nodes, &machine),
            Err(refusal) => push_unfold_error(out, refusal),
        },
        Err(refusal) => push_refusal(out, refusal),
    }
}

/// What is answered for the block of a node and a vector.
#[derive(Clone, Copy)]
struct Answers {
    finish: Dd,
    /// The number of what is handed on where the last instruction does not jump.
    behind: usize,
    /// The number of what is handed on where it jumps.
    jumped: usize,
}

fn answers_at(
    table: &mut Table,
    memo: &mut EndMemo,
    pool: &VectorPool,
    place: usize,
    site: &Site,
) -> Result<Answers, NoMemory>
    requires place { place < length pool.now }
    requires small { (from : VectorOf) → slice_get pool.now place ≡ Some from → AreWithin (10 ^ 18) from.slots }
    requires node { site.now.node < length site.now.unfolded.now.nodes }
    requires unfolded { IsUnfoldedOn site.now.machine.now site.now.unfolded.now }
    requires machine { IsMachine site.now.machine.now }
    requires right { AreEndsRight table.old pool.now site.now.machine.now site.now.unfolded.now memo.old }
    ensures right { AreEndsRight table.new pool.now site.now.machine.now site.now.unfolded.now memo.new }
{
    let finish = finish_at(table, memo, pool, place, site)?;
    let behind = leave_at(table, memo, pool, place, site, false)?;
    let jumped = leave_at(table, memo, pool, place, site, true)?;
    Ok(Answers {
        finish,
        behind,
        jumped,
    })
}

fn push_places(
    alloc: Global,
    out: &mut String,
    u: &Unfolded,
    nodes: [u32; 2],
    machine: &Machine,
) -> Result<()>
    requires unfolded { IsUnfoldedOn machine.now u.now }
    requires machine { IsMachine machine.now }
{
    let [first, second] = nodes;
    let count = u.nodes.as_slice().len();
    ensure!(
        (first as usize) < count && (second as usize) < count,
        "there are {count} nodes"
    );
    kept_answers_stay();
    let mut pool = VectorPool::new(alloc);
    let place = pool.intern(&Vector::zero())?;
    let mut table = Table::new(alloc);
    let mut memo = EndMemo::new(alloc);
    let one = Site {
        unfolded: u,
        node: first,
        machine,
    };
    let other = Site {
        unfolded: u,
        node: second,
        machine,
    };
    let here = answers_at(&mut table, &mut memo, &pool, place, &one)?;
    let there = answers_at(&mut table, &mut memo, &pool, place, &other)?;
    let is_shared = here.finish == there.finish
        && here.behind == there.behind
        && here.jumped == there.jumped;
    let verdict = if is_shared {
        "one finish, one leaving of each kind"
    } else {
        "different answers"
    };
    write!(out, " {verdict}")?;
    Ok(())
}
