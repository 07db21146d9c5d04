ghost use Rattle.std.specs.Prelude.{◌≡◌, ◌<◌, ◌^◌, ◌∷◌, ℕ, List, length, slice_get, Some, IfOk};
ghost use Rattle.wx_base.specs.declared.machine.Machine.{Machine as MachineOf};
ghost use Rattle.flow_block.specs.declared.block.Block.{Block as BlockOf};
ghost use Rattle.wx_base.specs.Blocks.{finish_from};
ghost use Rattle.wx_base.specs.Machine.{IsMachine};
ghost use Rattle.wx_base.specs.Vector.{AreWithin};
ghost use Rattle.xdd_table.specs.declared.node.Node.{Node as NodeOf};
ghost use Rattle.xdd_table.specs.Diagram.{Combination, time, Keeps};
ghost use Rattle.pipe_block.specs.Events.{IsTimed, entries_of};
ghost use Rattle.pipe_block.specs.Times.{AreDiagrams, AreTimes};
ghost use Rattle.pipe_block.specs.Walks.{IsWalk};

use crate::columns::columns;
use crate::diagrams::BlockVector;
use crate::state::State;
use crate::walk::{Course, walk};
use crate::walked::Walked;
use flow_block::Block;
use indexmap::{IndexMap, IndexSet};
use pipe_time::Vector;
use std::alloc::Global;
use wx_base::{Machine, NoMemory};
use xdd_table::{Dd, Table};

/// Walks through a block from a vector. No instruction jumps. The only error is want of memory.
///
/// Equal states of the pipeline before an instruction are walked on from once, so the time goes by how many different
/// ones there are.
pub fn walk_block(alloc: Global, from: &Vector, b: &Block, m: &Machine) -> Result<Walked, NoMemory>
    requires small { AreWithin (10 ^ 18) from.now.slots }
    requires timed { IsTimed b.now }
    requires machine { IsMachine m.now }
    ensures { IfOk result (λ w. IsWalk w.plan w.rows.keys m.now from.now.slots b.now w.root.place) }
{
    let course = Course {
        insns: b.insns.as_slice(),
        events: b.slots.as_slice(),
        machine: m,
    };
    let slots = from.slots;
    let state = State {
        at: 0,
        decided: 0,
        miss: false,
        slow: false,
        slots,
    };
    let mut plan = Table::new(alloc);
    let mut rows = IndexSet::new(alloc);
    let mut known = IndexMap::new(alloc);
    let root = walk(&course, &state, &mut plan, &mut rows, &mut known)?;
    Ok(Walked { plan, root, rows })
}

/// The times of a block from a vector, as diagrams over the block's events: their numbers are those of its slots.
///
/// No instruction jumps. The only error is want of memory.
pub fn block(
    table: &mut Table,
    from: &Vector,
    b: &Block,
    m: &Machine,
) -> Result<BlockVector, NoMemory>
    requires small { AreWithin (10 ^ 18) from.now.slots }
    requires timed { IsTimed b.now }
    requires machine { IsMachine m.now }
    ensures times { IfOk result (AreTimes table.new m.now from.now.slots b.now) }
    ensures few { IfOk result (λ v. AreDiagrams table.new 12 (v.last ∷ v.slots)) }
    ensures kept { Keeps table.old table.new }
{
    let walked = walk_block(table.allocator(), from, b, m)?;
    let rows = walked.rows.as_slice();
    let all = columns(table, &walked.plan, walked.root, rows)?;
    let slots = all.slots;
    Ok(BlockVector {
        slots,
        last: all.number,
    })
}

/// The diagram of the time at which a block's last instruction is complete.
pub fn finish(v: &BlockVector) -> Dd
    ensures place { slice_get v.now.slots 14 ≡ Some result }
    ensures value { (nodes : List NodeOf) (m : MachineOf) (from : List ℕ) (b : BlockOf)
        → AreTimes nodes m from b v.now → (f : Combination)
        → time nodes f result.place ≡ finish_from m from (entries_of b f) }
{
    v.slots[14]
}
