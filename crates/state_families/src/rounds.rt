//! The rounds in which vectors come to the nodes. A vector brings its exits once, in the round after it came: for a
//! node that is not joined they stay there, and a joined node's one vector covers them.

ghost use Rattle.std.specs.Prelude.{◌≡◌, ◌<◌, ◌≤◌, ◌^◌, ℕ, true, false, List, [], ◌∷◌, length, slice_get, Some, Contains, IfOk, OnOk, sum_by, if◌then◌else◌};
ghost use Rattle.wx_base.specs.Machine.{IsMachine};
ghost use Rattle.wx_base.specs.Vector.{AreWithin, zero_slots};
ghost use Rattle.flow_ctx.specs.Laws.{IsUnfoldedOn};
ghost use Rattle.xdd_table.specs.Diagram.{Keeps};
ghost use Rattle.cache_class.specs.Classes.{AreClasses};
ghost use Rattle.pipe_block.specs.Kept.{AreEndsRight};
ghost use Rattle.state_families.specs.Families.{AreFirst, AreSettled, IsExitTo, IsListedAt};
ghost use Rattle.state_families.specs.Fresh.{AreFirstFresh, AreGrown, AreReached, HasAny, IsSet, left};
ghost use Rattle.state_families.specs.Growth.{IsGrowth};
ghost use Rattle.state_families.specs.Incoming.{AreIncoming, lists_of};
ghost use Rattle.state_families.specs.Leaving.{IsExitAmong};

use crate::arrivals::arrivals_at;
use crate::growth::grow;
use crate::incoming::edges_into;
use crate::node_set::{NodeSet, Slots};
use crate::subject::Subject;
use crate::work::Work;
use flow_ctx::Unfolded;
use pipe_block::kept_answers_stay;
use std::alloc::Global;
use wx_text::{List, NoMemory};
use xdd_table::Table;

/// The vectors of a node before the first round: that of the empty pipeline where runs start, and none elsewhere.
fn first_vectors(alloc: Global, at_start: bool) -> Result<List<Slots>, NoMemory>
    ensures { IfOk result (λ vectors. vectors ≡ (if at_start then zero_slots ∷ [] else [])) }
{
    let mut vectors = Vec::new(alloc);
    if at_start {
        vectors.push([0; 35])?;
    }
    Ok(List::new(vectors))
}

/// The sets before the first round.
fn first_sets(alloc: Global, u: &Unfolded) -> Result<Vec<NodeSet>, NoMemory>
    ensures { IfOk result (λ sets. AreFirst (length u.now.nodes) u.now.start sets.items) }
{
    let mut sets = Vec::with_capacity(alloc, u.nodes.len())?;
    for node in 0..u.nodes.len() {
        let vectors = first_vectors(alloc, node == u.start as usize)?;
        sets.push(NodeSet {
            vectors,
            kept: None,
        })?;
    }
    Ok(sets)
}

/// What is new before the first round: all that is there.
fn first_fresh(alloc: Global, u: &Unfolded) -> Result<Vec<List<Slots>>, NoMemory>
    ensures { IfOk result (λ fresh. AreFirstFresh (length u.now.nodes) u.now.start fresh.items) }
{
    let mut fresh = Vec::with_capacity(alloc, u.nodes.len())?;
    for node in 0..u.nodes.len() {
        fresh.push(first_vectors(alloc, node == u.start as usize)?)?;
    }
    Ok(fresh)
}

/// Whether some list has an element.
fn has_any(lists: &[List<Slots>]) -> bool
    ensures some { result ≡ true → HasAny lists.now }
    ensures none { result ≡ false → (place : ℕ) (list : List (List ℕ)) → slice_get lists.now place ≡ Some list
        → list ≡ [] }
{
    for list in lists {
        if !list.is_empty() {
            return true;
        }
    }
    false
}

/// A round at a node: it takes what arrives, along the edges into it by their numbers, from the vectors that are new at
/// their sources. The answer has what is new at the node then.
fn grow_node(
    table: &mut Table,
    work: &mut Work,
    subject: &Subject,
    numbers: &[usize],
    fresh: &[List<Slots>],
    set: &mut NodeSet,
) -> Result<List<Slots>, NoMemory>
    requires small { (node : ℕ) (slots : List ℕ) → IsListedAt fresh.now node slots → AreWithin (10 ^ 18) slots }
    requires long { length fresh.now ≡ length subject.now.unfolded.now.nodes }
    requires numbers { (number : ℕ) → Contains numbers.now number → number < length subject.now.unfolded.now.edges }
    requires unfolded { IsUnfoldedOn subject.now.machine.now subject.now.unfolded.now }
    requires classes { let s = subject.now in AreClasses s.unfolded.now s.machine.now s.classes.now }
    requires machine { IsMachine subject.now.machine.now }
    requires sound { let m = subject.now.machine.now in IsSet m.states m.horizon set.old }
    requires right { let s = subject.now in
        AreEndsRight table.old work.old.pool s.machine.now s.unfolded.now work.old.memo }
    ensures growth { let s = subject.now in let m = s.machine.now in IfOk result (IsGrowth m.states m.horizon
        (IsExitAmong s.unfolded.now m s.classes.now numbers.now fresh.now) set.old set.new) }
    ensures right { let s = subject.now in
        AreEndsRight table.new work.new.pool s.machine.now s.unfolded.now work.new.memo }
    ensures kept { Keeps table.old table.new }
{
    let arrivals = arrivals_at(table, work, subject, numbers, fresh)?;
    grow(table.allocator(), set, arrivals.as_slice(), subject.machine)
}

/// A round: each node takes what arrives from the vectors that were new before it. The answer has what is new then.
fn round(
    table: &mut Table,
    work: &mut Work,
    subject: &Subject,
    incoming: &[Vec<usize>],
    sets: &mut [NodeSet],
    fresh: &[List<Slots>],
) -> Result<Vec<List<Slots>>, NoMemory>
    requires unfolded { IsUnfoldedOn subject.now.machine.now subject.now.unfolded.now }
    requires classes { let s = subject.now in AreClasses s.unfolded.now s.machine.now s.classes.now }
    requires machine { IsMachine subject.now.machine.now }
    requires incoming { let u = subject.now.unfolded.now in
        AreIncoming u.edges (length u.nodes) (length u.edges) (lists_of incoming.now) }
    requires reached { let s = subject.now in let m = s.machine.now in let u = s.unfolded.now in
        AreReached (IsExitTo u m s.classes.now) m.states m.horizon (length u.nodes) u.start sets.old fresh.now }
    requires right { let s = subject.now in
        AreEndsRight table.old work.old.pool s.machine.now s.unfolded.now work.old.memo }
    ensures grown { let s = subject.now in let m = s.machine.now in IfOk result (λ new.
        AreGrown (IsExitTo s.unfolded.now m s.classes.now) m.states m.horizon sets.old fresh.now sets.new new.items) }
    ensures fewer { let m = subject.now.machine.now in IfOk result (λ new. HasAny new.items →
        sum_by (left m.states m.horizon) sets.new < sum_by (left m.states m.horizon) sets.old) }
    ensures right { let s = subject.now in
        AreEndsRight table.new work.new.pool s.machine.now s.unfolded.now work.new.memo }
    ensures kept { Keeps table.old table.new }
{
    let mut new = Vec::with_capacity(table.allocator(), sets.len())?;
    for node in 0..sets.len() {
        let numbers = incoming[node].as_slice();
        let list = grow_node(table, work, subject, numbers, fresh, &mut sets[node])?;
        new.push(list)?;
    }
    Ok(new)
}

/// A round; whether something is new then.
fn advance(
    table: &mut Table,
    work: &mut Work,
    subject: &Subject,
    incoming: &[Vec<usize>],
    sets: &mut [NodeSet],
    fresh: &mut Vec<List<Slots>>,
) -> Result<bool, NoMemory>
    requires unfolded { IsUnfoldedOn subject.now.machine.now subject.now.unfolded.now }
    requires classes { let s = subject.now in AreClasses s.unfolded.now s.machine.now s.classes.now }
    requires machine { IsMachine subject.now.machine.now }
    requires incoming { let u = subject.now.unfolded.now in
        AreIncoming u.edges (length u.nodes) (length u.edges) (lists_of incoming.now) }
    requires reached { let s = subject.now in let m = s.machine.now in let u = s.unfolded.now in
        AreReached (IsExitTo u m s.classes.now) m.states m.horizon (length u.nodes) u.start sets.old fresh.old.items }
    requires right { let s = subject.now in
        AreEndsRight table.old work.old.pool s.machine.now s.unfolded.now work.old.memo }
    ensures reached { let s = subject.now in let m = s.machine.now in let u = s.unfolded.now in OnOk result
        (AreReached (IsExitTo u m s.classes.now) m.states m.horizon (length u.nodes) u.start sets.new fresh.new.items) }
    ensures fewer { let m = subject.now.machine.now in IfOk result (λ any. any ≡ true →
        sum_by (left m.states m.horizon) sets.new < sum_by (left m.states m.horizon) sets.old) }
    ensures none { IfOk result (λ any. any ≡ false → (node : ℕ) (list : List (List ℕ))
        → slice_get fresh.new.items node ≡ Some list → list ≡ []) }
    ensures right { let s = subject.now in
        AreEndsRight table.new work.new.pool s.machine.now s.unfolded.now work.new.memo }
    ensures kept { Keeps table.old table.new }
{
    let new = round(table, work, subject, incoming, sets, fresh.as_slice())?;
    let any = has_any(new.as_slice());
    *fresh = new;
    Ok(any)
}

/// Rounds until nothing is new. They end, since unjoined nodes have few vectors, and the slots of exits lie within the
/// machine's horizon.
fn settle(
    table: &mut Table,
    work: &mut Work,
    subject: &Subject,
    incoming: &[Vec<usize>],
    sets: &mut [NodeSet],
    fresh: &mut Vec<List<Slots>>,
) -> Result<(), NoMemory>
    requires unfolded { IsUnfoldedOn subject.now.machine.now subject.now.unfolded.now }
    requires classes { let s = subject.now in AreClasses s.unfolded.now s.machine.now s.classes.now }
    requires machine { IsMachine subject.now.machine.now }
    requires incoming { let u = subject.now.unfolded.now in
        AreIncoming u.edges (length u.nodes) (length u.edges) (lists_of incoming.now) }
    requires reached { let s = subject.now in let m = s.machine.now in let u = s.unfolded.now in
        AreReached (IsExitTo u m s.classes.now) m.states m.horizon (length u.nodes) u.start sets.old fresh.old.items }
    requires right { let s = subject.now in
        AreEndsRight table.old work.old.pool s.machine.now s.unfolded.now work.old.memo }
    ensures settled { let s = subject.now in let m = s.machine.now in let u = s.unfolded.now in OnOk result
        (AreSettled (IsExitTo u m s.classes.now) m.states (length u.nodes) u.start sets.new) }
    ensures kept { Keeps table.old table.new }
{
    'rounds: while advance(table, work, subject, incoming, sets, fresh)? {}
    Ok(())
}

/// What the rounds come to.
pub(crate) fn settled_sets(table: &mut Table, subject: &Subject) -> Result<Vec<NodeSet>, NoMemory>
    requires unfolded { IsUnfoldedOn subject.now.machine.now subject.now.unfolded.now }
    requires classes { let s = subject.now in AreClasses s.unfolded.now s.machine.now s.classes.now }
    requires machine { IsMachine subject.now.machine.now }
    ensures settled { let s = subject.now in let m = s.machine.now in let u = s.unfolded.now in IfOk result (λ sets.
        AreSettled (IsExitTo u m s.classes.now) m.states (length u.nodes) u.start sets.items) }
    ensures kept { Keeps table.old table.new }
{
    kept_answers_stay();
    let alloc = table.allocator();
    let mut work = Work::new(alloc);
    let incoming = edges_into(alloc, subject.unfolded)?;
    let mut sets = first_sets(alloc, subject.unfolded)?;
    let mut fresh = first_fresh(alloc, subject.unfolded)?;
    settle(
        table,
        &mut work,
        subject,
        incoming.as_slice(),
        sets.as_mut_slice(),
        &mut fresh,
    )?;
    Ok(sets)
}
