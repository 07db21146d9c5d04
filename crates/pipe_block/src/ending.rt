//! The ends of a block from a vector: its finish, and what it hands on along its edges.

ghost use Rattle.std.specs.Prelude.{◌≡◌, ◌≤◌, ◌<◌, ◌^◌, ℕ, List, not, length, Some, IfOk};
ghost use Rattle.flow_block.specs.declared.block.Block.{Block as BlockOf};
ghost use Rattle.flow_block.specs.Blocks.{most_slots};
ghost use Rattle.wx_base.specs.Machine.{IsMachine};
ghost use Rattle.wx_base.specs.Vector.{AreWithin};
ghost use Rattle.xdd_table.specs.Diagram.{Keeps};
ghost use Rattle.pipe_block.specs.Events.{IsTimed};
ghost use Rattle.pipe_block.specs.Kept.{AreEndsOf, AreNumbered, number_in, HasNumber};
ghost use Rattle.pipe_block.specs.Leavings.{IsLeavingAt, KeepsLeavings};
ghost use Rattle.pipe_block.specs.Walks.{IsWalk};

use crate::diagrams::Leaving;
use crate::ends::Ends;
use crate::leaving::{finish_from, leaving_from};
use crate::timing::walk_block;
use crate::walked::Walked;
use flow_block::Block;
use pipe_time::Vector;
use wx_base::{Machine, NoMemory};
use xdd_table::{Dd, Table};

/// Whether edges of a block's node may be those by which its last instruction jumps, calls or returns, or the others.
fn may_leave(b: &Block, taken: bool) -> bool {
    if taken {
        b.ret || !b.jumps.is_empty() || !b.calls.is_empty()
    } else {
        b.next.is_some()
    }
}

/// Puts what a block hands on behind what was made before, and answers its number.
fn add_leaving(
    table: &mut Table,
    made: &mut Vec<Leaving>,
    walked: &Walked,
    taken: bool,
    m: &Machine,
) -> Result<usize, NoMemory>
    requires within { walked.now.root.place < length walked.now.plan }
    requires machine { IsMachine m.now }
    ensures leaving { (from : List ℕ) (b : BlockOf) → length b.slots ≤ most_slots
        → IsWalk walked.now.plan walked.now.rows.keys m.now from b walked.now.root.place
        → IfOk result (IsLeavingAt table.new made.new.items m.now from b taken) }
    ensures leavings { KeepsLeavings made.old.items made.new.items }
    ensures kept { Keeps table.old table.new }
{
    let leaving = leaving_from(table, walked, taken, m)?;
    let number = made.len();
    made.push(leaving)?;
    Ok(number)
}

/// The same where it is wanted.
fn add_wanted(
    table: &mut Table,
    made: &mut Vec<Leaving>,
    walked: &Walked,
    taken: bool,
    is_wanted: bool,
    m: &Machine,
) -> Result<Option<usize>, NoMemory>
    requires within { walked.now.root.place < length walked.now.plan }
    requires machine { IsMachine m.now }
    ensures leaving { (from : List ℕ) (b : BlockOf) → length b.slots ≤ most_slots
        → IsWalk walked.now.plan walked.now.rows.keys m.now from b walked.now.root.place
        → IfOk result (AreNumbered table.new made.new.items m.now from b taken) }
    ensures leavings { KeepsLeavings made.old.items made.new.items }
    ensures kept { Keeps table.old table.new }
{
    if !is_wanted {
        return Ok(None);
    }
    let number = add_leaving(table, made, walked, taken, m)?;
    Ok(Some(number))
}

/// The ends with a finish, and with the numbers of what is handed on where the last instruction does as in `taken`, and
/// otherwise.
fn ends_with(finish: Dd, taken: bool, number: usize, other: Option<usize>) -> Ends
    ensures finish { result.finish ≡ finish }
    ensures here { number_in result taken ≡ Some number }
    ensures there { number_in result (not taken) ≡ other }
{
    if taken {
        Ends {
            finish,
            behind: other,
            jumped: Some(number),
        }
    } else {
        Ends {
            finish,
            behind: Some(number),
            jumped: other,
        }
    }
}

/// The ends of a block from a vector: what it hands on where its last instruction does as in `taken` is made, and the
/// other where some edge asks for it.
pub fn ends_from(
    table: &mut Table,
    made: &mut Vec<Leaving>,
    from: &Vector,
    b: &Block,
    taken: bool,
    m: &Machine,
) -> Result<Ends, NoMemory>
    requires small { AreWithin (10 ^ 18) from.now.slots }
    requires timed { IsTimed b.now }
    requires machine { IsMachine m.now }
    ensures ends { IfOk result (AreEndsOf table.new made.new.items m.now from.now.slots b.now) }
    ensures number { IfOk result (λ ends. HasNumber ends taken) }
    ensures leavings { KeepsLeavings made.old.items made.new.items }
    ensures kept { Keeps table.old table.new }
{
    let walked = walk_block(table.allocator(), from, b, m)?;
    let finish = finish_from(table, &walked)?;
    let number = add_leaving(table, made, &walked, taken, m)?;
    let is_wanted = may_leave(b, !taken);
    let other = add_wanted(table, made, &walked, !taken, is_wanted, m)?;
    Ok(ends_with(finish, taken, number, other))
}
