ghost use Rattle.std.specs.Prelude.{◌≡◌, ◌<◌, ◌^◌, ℕ, length, slice_get, Some, Ok, IfOk, IfSome, IfNone, OnErr};
ghost use Rattle.flow_block.specs.declared.block.Block.{Block as BlockOf};
ghost use Rattle.flow_ctx.specs.Laws.{IsUnfoldedOn};
ghost use Rattle.flow_ctx.specs.Nodes.{IsBlockOf};
ghost use Rattle.pipe_time.specs.declared.vector.Vector.{Vector as VectorOf};
ghost use Rattle.wx_base.specs.Machine.{IsMachine};
ghost use Rattle.wx_base.specs.Vector.{AreWithin};
ghost use Rattle.xdd_table.specs.Diagram.{Keeps};
ghost use Rattle.pipe_block.specs.declared.ends.Ends.{Ends as EndsOf};
ghost use Rattle.pipe_block.specs.declared.key.MemoKey.{MemoKey as KeyOf};
ghost use Rattle.pipe_block.specs.Kept.{AreEndsOf, AreEndsRight, HasNumber, IsAnswered, IsKeyOf, KeepsAnswer, IsNumberIn, kept_in, number_in};
ghost use Rattle.pipe_block.specs.Leavings.{IsFinishOf, IsLeavingAt, KeepsLeavings};

use crate::ending::ends_from;
use crate::ends::Ends;
use crate::key::MemoKey;
use crate::memo::EndMemo;
use crate::site::Site;
use flow_ctx::nodes_have_blocks;
use pipe_time::VectorPool;
use wx_base::NoMemory;
use xdd_table::{Dd, Table};

/// For which block and vector the answer at a node is kept. Nodes that differ in their chains alone have one key.
fn key_of(site: &Site, place: usize) -> MemoKey
    requires { site.now.node < length site.now.unfolded.now.nodes }
    ensures { IsKeyOf site.now.unfolded.now site.now.node place result }
{
    let at = &site.unfolded.nodes.as_slice()[site.node as usize];
    MemoKey {
        function: at.function,
        block: at.block,
        place,
    }
}

/// The number of what is handed on where the last instruction jumps or does not, if it was made.
fn made_number(ends: &Ends, taken: bool) -> Option<usize>
    ensures { result ≡ number_in ends.now taken }
{
    if taken { ends.jumped } else { ends.behind }
}

/// The number that was made.
fn number_of(ends: &Ends, taken: bool) -> usize
    requires { HasNumber ends.now taken }
    ensures { number_in ends.now taken ≡ Some result }
{
    match made_number(ends, taken) {
        Some(number) => number,
        None => unreachable!(),
    }
}

impl EndMemo {
    /// What is kept for a key.
    fn known(&self, key: &MemoKey) -> Option<Ends>
        ensures { result ≡ kept_in self.now.entries key.now }
    {
        self.kept.get(key).copied()
    }

    /// The number that is kept for a key, where the last instruction jumps or does not.
    fn number(&self, key: &MemoKey, taken: bool) -> Option<usize>
        ensures some { IfSome result (IsNumberIn self.now.entries key.now taken) }
        ensures none { IfNone result ((number : ℕ) → IsNumberIn self.now.entries key.now taken number → ⊥) }
    {
        match self.known(key) {
            Some(ends) => made_number(&ends, taken),
            None => None,
        }
    }
}

/// Makes the ends of a node's block from the vector at a place of the pool, and keeps them.
fn ends_at(
    table: &mut Table,
    memo: &mut EndMemo,
    pool: &VectorPool,
    place: usize,
    site: &Site,
    taken: bool,
) -> Result<Ends, NoMemory>
    requires place { place < length pool.now }
    requires small { (from : VectorOf) → slice_get pool.now place ≡ Some from → AreWithin (10 ^ 18) from.slots }
    requires node { site.now.node < length site.now.unfolded.now.nodes }
    requires unfolded { IsUnfoldedOn site.now.machine.now site.now.unfolded.now }
    requires machine { IsMachine site.now.machine.now }
    requires right { AreEndsRight table.old pool.now site.now.machine.now site.now.unfolded.now memo.old }
    ensures ends { (from : VectorOf) (b : BlockOf) → slice_get pool.now place ≡ Some from
        → IsBlockOf site.now.unfolded.now site.now.node b
        → IfOk result (AreEndsOf table.new memo.new.leavings site.now.machine.now from.slots b) }
    ensures number { IfOk result (λ ends. HasNumber ends taken) }
    ensures within { IfOk result (λ ends. (number : ℕ) → number_in ends taken ≡ Some number
        → number < length memo.new.leavings) }
    ensures answered { (key : KeyOf) → IsKeyOf site.now.unfolded.now site.now.node place key
        → IfOk result (IsAnswered memo.old.entries memo.new.entries key) }
    ensures unchanged { OnErr result (memo.new.entries ≡ memo.old.entries) }
    ensures right { AreEndsRight table.new pool.now site.now.machine.now site.now.unfolded.now memo.new }
    ensures leavings { KeepsLeavings memo.old.leavings memo.new.leavings }
    ensures kept { Keeps table.old table.new }
{
    nodes_have_blocks();
    let key = key_of(site, place);
    let from = pool.get(place);
    let b = site.unfolded.block(site.node);
    let ends = ends_from(table, &mut memo.made, &from, b, taken, site.machine)?;
    memo.kept.insert(key, ends)?;
    Ok(ends)
}

/// The diagram of the time at which the block of a node is complete, from the vector at a place of the pool.
///
/// What was found for a block and a place is kept, so nodes that differ in their chains alone share it. The memo is to be
/// used with one table, one pool, one unfolding and one machine. The only error is want of memory.
pub fn finish_at(
    table: &mut Table,
    memo: &mut EndMemo,
    pool: &VectorPool,
    place: usize,
    site: &Site,
) -> Result<Dd, NoMemory>
    requires place { place < length pool.now }
    requires small { (from : VectorOf) → slice_get pool.now place ≡ Some from → AreWithin (10 ^ 18) from.slots }
    requires node { site.now.node < length site.now.unfolded.now.nodes }
    requires unfolded { IsUnfoldedOn site.now.machine.now site.now.unfolded.now }
    requires machine { IsMachine site.now.machine.now }
    requires right { AreEndsRight table.old pool.now site.now.machine.now site.now.unfolded.now memo.old }
    ensures finish { (from : VectorOf) (b : BlockOf) → slice_get pool.now place ≡ Some from
        → IsBlockOf site.now.unfolded.now site.now.node b
        → IfOk result (IsFinishOf table.new site.now.machine.now from.slots b) }
    ensures answered { (key : KeyOf) → IsKeyOf site.now.unfolded.now site.now.node place key
        → IfOk result (λ d. KeepsAnswer memo.old.entries memo.new.entries key (λ ends. ends.finish ≡ d)) }
    ensures known { (key : KeyOf) (ends : EndsOf) → IsKeyOf site.now.unfolded.now site.now.node place key
        → kept_in memo.old.entries key ≡ Some ends
        → (result ≡ Ok ends.finish) × (table.new ≡ table.old) × (memo.new ≡ memo.old) }
    ensures unchanged { OnErr result (memo.new.entries ≡ memo.old.entries) }
    ensures right { AreEndsRight table.new pool.now site.now.machine.now site.now.unfolded.now memo.new }
    ensures leavings { KeepsLeavings memo.old.leavings memo.new.leavings }
    ensures kept { Keeps table.old table.new }
{
    let key = key_of(site, place);
    if let Some(ends) = memo.known(&key) {
        return Ok(ends.finish);
    }
    nodes_have_blocks();
    let taken = site.unfolded.block(site.node).next.is_none();
    let ends = ends_at(table, memo, pool, place, site, taken)?;
    Ok(ends.finish)
}

/// What the block of a node hands on from the vector at a place of the pool, where its last instruction jumps or does not:
/// the number of the answer in the memo.
///
/// What was found for a block and a place is kept, so nodes that differ in their chains alone share it. The memo is to be
/// used with one table, one pool, one unfolding and one machine. The only error is want of memory.
pub fn leave_at(
    table: &mut Table,
    memo: &mut EndMemo,
    pool: &VectorPool,
    place: usize,
    site: &Site,
    taken: bool,
) -> Result<usize, NoMemory>
    requires place { place < length pool.now }
    requires small { (from : VectorOf) → slice_get pool.now place ≡ Some from → AreWithin (10 ^ 18) from.slots }
    requires node { site.now.node < length site.now.unfolded.now.nodes }
    requires unfolded { IsUnfoldedOn site.now.machine.now site.now.unfolded.now }
    requires machine { IsMachine site.now.machine.now }
    requires right { AreEndsRight table.old pool.now site.now.machine.now site.now.unfolded.now memo.old }
    ensures within { IfOk result (λ number. number < length memo.new.leavings) }
    ensures leaving { (from : VectorOf) (b : BlockOf) → slice_get pool.now place ≡ Some from
        → IsBlockOf site.now.unfolded.now site.now.node b
        → IfOk result (IsLeavingAt table.new memo.new.leavings site.now.machine.now from.slots b taken) }
    ensures answered { (key : KeyOf) → IsKeyOf site.now.unfolded.now site.now.node place key
        → IfOk result (λ number. KeepsAnswer memo.old.entries memo.new.entries key
        (λ ends. number_in ends taken ≡ Some number)) }
    ensures known { (key : KeyOf) (number : ℕ) → IsKeyOf site.now.unfolded.now site.now.node place key
        → IsNumberIn memo.old.entries key taken number
        → (result ≡ Ok number) × (table.new ≡ table.old) × (memo.new ≡ memo.old) }
    ensures unchanged { OnErr result (memo.new.entries ≡ memo.old.entries) }
    ensures right { AreEndsRight table.new pool.now site.now.machine.now site.now.unfolded.now memo.new }
    ensures leavings { KeepsLeavings memo.old.leavings memo.new.leavings }
    ensures kept { Keeps table.old table.new }
{
    let key = key_of(site, place);
    if let Some(number) = memo.number(&key, taken) {
        return Ok(number);
    }
    let ends = ends_at(table, memo, pool, place, site, taken)?;
    Ok(number_of(&ends, taken))
}
