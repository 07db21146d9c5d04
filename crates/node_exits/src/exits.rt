ghost use Rattle.std.specs.Prelude.{◌≡◌, ◌<◌, ◌^◌, List, length, slice_get, Some, IfOk};
ghost use Rattle.wx_base.specs.Vector.{AreWithin};
ghost use Rattle.wx_base.specs.declared.machine.Machine.{Machine as MachineOf};
ghost use Rattle.xdd_table.specs.declared.node.Node.{Node as NodeOf};
ghost use Rattle.xdd_table.specs.Diagram.{Keeps};
ghost use Rattle.flow_ctx.specs.declared.unfolded.Unfolded.{Unfolded as UnfoldedOf};
ghost use Rattle.pipe_time.specs.declared.vector.Vector.{Vector as VectorOf};
ghost use Rattle.node_exits.specs.NodeExits.{IsAnswer, IsNode, IsNodeFinish, IsRight, KeepsWork};

use crate::work::Work;
use flow_ctx::nodes_have_blocks;
use pipe_block::{EndMemo, Leaving, Site, finish_at, kept_answers_stay, leave_at};
use pipe_time::{Vector, VectorPool};
use std::alloc::Global;
use wx_text::NoMemory;
use xdd_table::{Dd, Table};

impl Work {
    /// Nothing was worked out. It takes no memory.
    pub fn new(alloc: Global) -> Work
        ensures { (nodes : List NodeOf) (u : UnfoldedOf) (m : MachineOf) → IsRight nodes u m result }
    {
        kept_answers_stay();
        Work {
            memo: EndMemo::new(alloc),
            pool: VectorPool::new(alloc),
        }
    }

    /// The place of a vector, by which it is named from then on. The only error is want of memory.
    pub fn place_of(&mut self, v: &Vector) -> Result<usize, NoMemory>
        ensures place { IfOk result (λ place. slice_get self.new.pool place ≡ Some v.now) }
        ensures right { (nodes : List NodeOf) (u : UnfoldedOf) (m : MachineOf) → IsRight nodes u m self.old
            → IsRight nodes u m self.new }
        ensures kept { KeepsWork self.old self.new }
    {
        kept_answers_stay();
        self.pool.intern(v)
    }

    /// The answer of [`leave_from`] with a number.
    pub fn leaving(&self, number: usize) -> &Leaving
        requires { number < length self.now.memo.leavings }
        ensures { slice_get self.now.memo.leavings number ≡ Some result.now }
    {
        self.memo.leaving(number)
    }
}

/// The diagram of the finish of a node's block from the vector at a place, which is worked out once for the block and the
/// place. The only error is want of memory.
pub fn finish_of(
    table: &mut Table,
    work: &mut Work,
    site: &Site,
    place: usize,
) -> Result<Dd, NoMemory>
    requires node { let s = site.now in IsNode s.unfolded.now s.machine.now s.node }
    requires place { place < length work.old.pool }
    requires small { (from : VectorOf) → slice_get work.old.pool place ≡ Some from
        → AreWithin (10 ^ 18) from.slots }
    requires right { let s = site.now in IsRight table.old s.unfolded.now s.machine.now work.old }
    ensures finish { let s = site.now in (from : VectorOf) → slice_get work.old.pool place ≡ Some from
        → IfOk result (IsNodeFinish table.new s.unfolded.now s.machine.now s.node from) }
    ensures right { let s = site.now in IsRight table.new s.unfolded.now s.machine.now work.new }
    ensures work { KeepsWork work.old work.new }
    ensures pool { work.new.pool ≡ work.old.pool }
    ensures kept { Keeps table.old table.new }
{
    nodes_have_blocks();
    finish_at(table, &mut work.memo, &work.pool, place, site)
}

/// What a node's block hands on from the vector at a place along the edges by which its last instruction jumps, or along
/// the others, as the number of the answer: `Work::leaving` gives it. It is worked out once for the block, the place and
/// the kind of edge. The only error is want of memory.
pub fn leave_from(
    table: &mut Table,
    work: &mut Work,
    site: &Site,
    place: usize,
    taken: bool,
) -> Result<usize, NoMemory>
    requires node { let s = site.now in IsNode s.unfolded.now s.machine.now s.node }
    requires place { place < length work.old.pool }
    requires small { (from : VectorOf) → slice_get work.old.pool place ≡ Some from
        → AreWithin (10 ^ 18) from.slots }
    requires right { let s = site.now in IsRight table.old s.unfolded.now s.machine.now work.old }
    ensures leaving { let s = site.now in (from : VectorOf) → slice_get work.old.pool place ≡ Some from
        → IfOk result (IsAnswer table.new s.unfolded.now s.machine.now s.node from taken work.new) }
    ensures right { let s = site.now in IsRight table.new s.unfolded.now s.machine.now work.new }
    ensures work { KeepsWork work.old work.new }
    ensures pool { work.new.pool ≡ work.old.pool }
    ensures kept { Keeps table.old table.new }
{
    nodes_have_blocks();
    leave_at(table, &mut work.memo, &work.pool, place, site, taken)
}
