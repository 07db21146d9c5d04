//! What edges hand on from vectors, each worked out once for a block and a vector.

ghost use Rattle.std.specs.Prelude.{◌≡◌, ◌<◌, ◌^◌, [], length, IfOk};
ghost use Rattle.wx_base.specs.Machine.{IsMachine};
ghost use Rattle.wx_base.specs.Vector.{AreWithin};
ghost use Rattle.flow_ctx.specs.Laws.{IsUnfoldedOn};
ghost use Rattle.xdd_table.specs.Diagram.{Keeps};
ghost use Rattle.pipe_block.specs.Kept.{AreEndsRight};
ghost use Rattle.state_families.specs.Leaving.{IsLeft};

use crate::node_set::Slots;
use crate::subject::Subject;
use flow_ctx::Edge;
use pipe_block::{EndMemo, Site, kept_answers_stay, leave_at};
use pipe_time::{Vector, VectorPool};
use std::alloc::Global;
use wx_text::NoMemory;
use xdd_table::Table;

/// What was worked out, and the vectors that it was worked out from.
#[derive(Drop)]
pub(crate) struct Work {
    pub memo: EndMemo,
    pub pool: VectorPool,
}

impl Work {
    /// Nothing was worked out. It takes no memory.
    pub fn new(alloc: Global) -> Work
        ensures memo { result.memo ≡ record { entries = []; leavings = [] } }
        ensures pool { result.pool ≡ [] }
    {
        Work {
            memo: EndMemo::new(alloc),
            pool: VectorPool::new(alloc),
        }
    }
}

/// What an edge hands on from a vector of its source: the number of the answer in the memo.
pub(crate) fn leave_along(
    table: &mut Table,
    work: &mut Work,
    subject: &Subject,
    edge: Edge,
    source: &Slots,
) -> Result<usize, NoMemory>
    requires small { AreWithin (10 ^ 18) source.now }
    requires node { edge.from < length subject.now.unfolded.now.nodes }
    requires unfolded { IsUnfoldedOn subject.now.machine.now subject.now.unfolded.now }
    requires machine { IsMachine subject.now.machine.now }
    requires right { let s = subject.now in
        AreEndsRight table.old work.old.pool s.machine.now s.unfolded.now work.old.memo }
    ensures within { IfOk result (λ number. number < length work.new.memo.leavings) }
    ensures left { let s = subject.now in
        IfOk result (IsLeft table.new work.new.memo.leavings s.unfolded.now s.machine.now edge source.now) }
    ensures right { let s = subject.now in
        AreEndsRight table.new work.new.pool s.machine.now s.unfolded.now work.new.memo }
    ensures kept { Keeps table.old table.new }
{
    kept_answers_stay();
    let place = work.pool.intern(&Vector { slots: *source })?;
    let site = Site {
        unfolded: subject.unfolded,
        node: edge.from,
        machine: subject.machine,
    };
    leave_at(table, &mut work.memo, &work.pool, place, &site, edge.taken)
}
