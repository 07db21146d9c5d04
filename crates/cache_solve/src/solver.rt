ghost use Rattle.std.specs.Prelude.{◌≡◌, ◌<◌, ℕ, true, false, [], ◌∷◌, length, All, IfOk, OnOk, sum_by};
ghost use Rattle.wx_base.specs.Facts.{AreAscending};
ghost use Rattle.wx_base.specs.Machine.{IsShape};
ghost use Rattle.cache_ages.specs.Bounds.{is_one_of};
ghost use Rattle.cache_flow.specs.Flows.{IsFlow};
ghost use Rattle.cache_solve.specs.Systems.{AreAlike, AreFirst, IsFirst, AreListed, AreRaised, AreSettled, AreWithin, IsBehind, IsLeast, IsOf};

use crate::marks::Marks;
use crate::state::State;
use cache_flow::{Flow, Move};
use std::alloc::Global;
use wx_base::{NoMemory, Shape};

/// The state behind some accesses.
pub(crate) fn behind<S: State>(alloc: Global, state: &S, accesses: &[u32]) -> Result<S, NoMemory>
    requires listed { All (λ line. is_one_of (S.lines_of state.now) line ≡ true) accesses.now }
    requires within { S.IsWithin (S.shape_of state.now) (S.lines_of state.now) (S.known state.now) }
    ensures shape { IfOk result (λ after. S.shape_of after ≡ S.shape_of state.now) }
    ensures lines { IfOk result (λ after. S.lines_of after ≡ S.lines_of state.now) }
    ensures within { IfOk result (λ after. S.IsWithin (S.shape_of state.now) (S.lines_of state.now) (S.known after)) }
    ensures known { IfOk result (IsBehind (S.Covers (S.lines_of state.now)) (S.accessed (S.shape_of state.now)) S.known accesses.now state.now) }
{
    S::order();
    let mut after = state.copy(alloc)?;
    for line in accesses {
        after.pass(*line);
    }
    Ok(after)
}

/// Takes what is known behind a node over a move from it; whether that changed the target's state.
fn follow<S: State>(
    alloc: Global,
    shape: Shape,
    flow: &Flow,
    states: &mut [S],
    step: Move,
) -> Result<bool, NoMemory>
    requires flow { AreListed flow.now }
    requires long { length states.old ≡ length flow.now.nodes }
    requires from { step.from < length flow.now.nodes }
    requires to { step.to < length flow.now.nodes }
    requires alike { AreAlike (IsOf S.known S.shape_of S.lines_of S.IsWithin shape flow.now.lines) states.old }
    ensures alike { OnOk result (AreAlike (IsOf S.known S.shape_of S.lines_of S.IsWithin shape flow.now.lines) states.new) }
    ensures raised { OnOk result (AreRaised (S.Covers flow.now.lines) (S.accessed shape) S.known flow.now (step ∷ []) states.old states.new) }
    ensures changed { IfOk result (λ changed. changed ≡ true → sum_by S.left states.new < sum_by S.left states.old) }
    ensures unchanged { IfOk result (λ changed. changed ≡ false → states.new ≡ states.old) }
    ensures settled { IfOk result (λ changed. changed ≡ false
        → AreSettled (S.Covers flow.now.lines) (S.accessed shape) S.known flow.now (step ∷ []) states.new) }
{
    S::order();
    let from = step.from as usize;
    let accesses = flow.nodes.as_slice()[from].as_slice();
    let known = behind(alloc, &states[from], accesses)?;
    Ok(states[step.to as usize].take_in(&known))
}

/// Follows each of the moves once; whether a state changed.
fn sweep<S: State>(
    alloc: Global,
    shape: Shape,
    flow: &Flow,
    moves: &[Move],
    states: &mut [S],
) -> Result<bool, NoMemory>
    requires flow { AreListed flow.now }
    requires long { length states.old ≡ length flow.now.nodes }
    requires moves { AreWithin flow.now moves.now }
    requires alike { AreAlike (IsOf S.known S.shape_of S.lines_of S.IsWithin shape flow.now.lines) states.old }
    ensures alike { OnOk result (AreAlike (IsOf S.known S.shape_of S.lines_of S.IsWithin shape flow.now.lines) states.new) }
    ensures raised { OnOk result (AreRaised (S.Covers flow.now.lines) (S.accessed shape) S.known flow.now moves.now states.old states.new) }
    ensures changed { IfOk result (λ changed. changed ≡ true → sum_by S.left states.new < sum_by S.left states.old) }
    ensures settled { IfOk result (λ changed. changed ≡ false
        → AreSettled (S.Covers flow.now.lines) (S.accessed shape) S.known flow.now moves.now states.new) }
{
    S::order();
    let mut changed = false;
    for step in moves {
        if follow(alloc, shape, flow, states, *step)? {
            changed = true;
        }
    }
    Ok(changed)
}

/// Follows a move if the state of its source has changed; whether that changed the target's state.
fn retrace<S: State>(
    alloc: Global,
    shape: Shape,
    flow: &Flow,
    states: &mut [S],
    step: Move,
    marks: &mut Marks,
) -> Result<bool, NoMemory>
    requires flow { AreListed flow.now }
    requires long { length states.old ≡ length flow.now.nodes }
    requires from { step.from < length flow.now.nodes }
    requires to { step.to < length flow.now.nodes }
    requires alike { AreAlike (IsOf S.known S.shape_of S.lines_of S.IsWithin shape flow.now.lines) states.old }
    requires marks { length marks.old.changed.items ≡ length flow.now.nodes }
    ensures alike { OnOk result (AreAlike (IsOf S.known S.shape_of S.lines_of S.IsWithin shape flow.now.lines) states.new) }
    ensures raised { OnOk result (AreRaised (S.Covers flow.now.lines) (S.accessed shape) S.known flow.now (step ∷ []) states.old states.new) }
    ensures changed { IfOk result (λ changed. changed ≡ true → sum_by S.left states.new < sum_by S.left states.old) }
    ensures unchanged { IfOk result (λ changed. changed ≡ false → states.new ≡ states.old) }
    ensures marks { length marks.new.changed.items ≡ length flow.now.nodes }
{
    S::order();
    if !marks.wants(step.from) {
        return Ok(false);
    }
    let changed = follow(alloc, shape, flow, states, step)?;
    if changed {
        marks.mark(step.to);
    }
    Ok(changed)
}

/// Follows the moves of the marked nodes once; whether a state changed. Where the moves of a node stand together, none is
/// left out that can change a state.
fn catch_up<S: State>(
    alloc: Global,
    shape: Shape,
    flow: &Flow,
    moves: &[Move],
    states: &mut [S],
    marks: &mut Marks,
) -> Result<bool, NoMemory>
    requires flow { AreListed flow.now }
    requires long { length states.old ≡ length flow.now.nodes }
    requires moves { AreWithin flow.now moves.now }
    requires alike { AreAlike (IsOf S.known S.shape_of S.lines_of S.IsWithin shape flow.now.lines) states.old }
    requires marks { length marks.old.changed.items ≡ length flow.now.nodes }
    ensures alike { OnOk result (AreAlike (IsOf S.known S.shape_of S.lines_of S.IsWithin shape flow.now.lines) states.new) }
    ensures raised { OnOk result (AreRaised (S.Covers flow.now.lines) (S.accessed shape) S.known flow.now moves.now states.old states.new) }
    ensures changed { IfOk result (λ changed. changed ≡ true → sum_by S.left states.new < sum_by S.left states.old) }
    ensures marks { length marks.new.changed.items ≡ length flow.now.nodes }
{
    S::order();
    let mut changed = false;
    for step in moves {
        if retrace(alloc, shape, flow, states, *step, marks)? {
            changed = true;
        }
    }
    Ok(changed)
}

/// Follows the moves of nodes that have changed until none has.
fn hurry<S: State>(
    alloc: Global,
    shape: Shape,
    flow: &Flow,
    moves: &[Move],
    states: &mut [S],
) -> Result<(), NoMemory>
    requires flow { AreListed flow.now }
    requires long { length states.old ≡ length flow.now.nodes }
    requires moves { AreWithin flow.now moves.now }
    requires alike { AreAlike (IsOf S.known S.shape_of S.lines_of S.IsWithin shape flow.now.lines) states.old }
    ensures alike { OnOk result (AreAlike (IsOf S.known S.shape_of S.lines_of S.IsWithin shape flow.now.lines) states.new) }
    ensures raised { OnOk result (AreRaised (S.Covers flow.now.lines) (S.accessed shape) S.known flow.now moves.now states.old states.new) }
{
    S::order();
    let mut marks = Marks::new(alloc, flow.nodes.len())?;
    'passes: while catch_up(alloc, shape, flow, moves, states, &mut marks)? {}
    Ok(())
}

/// Follows the moves until nothing changes: at first those of nodes that have changed, and then, which decides, all.
pub(crate) fn settle<S: State>(
    alloc: Global,
    shape: Shape,
    flow: &Flow,
    moves: &[Move],
    states: &mut [S],
) -> Result<(), NoMemory>
    requires flow { AreListed flow.now }
    requires long { length states.old ≡ length flow.now.nodes }
    requires moves { AreWithin flow.now moves.now }
    requires alike { AreAlike (IsOf S.known S.shape_of S.lines_of S.IsWithin shape flow.now.lines) states.old }
    ensures alike { OnOk result (AreAlike (IsOf S.known S.shape_of S.lines_of S.IsWithin shape flow.now.lines) states.new) }
    ensures raised { OnOk result (AreRaised (S.Covers flow.now.lines) (S.accessed shape) S.known flow.now moves.now states.old states.new) }
    ensures settled { OnOk result (AreSettled (S.Covers flow.now.lines) (S.accessed shape) S.known flow.now moves.now states.new) }
{
    S::order();
    hurry(alloc, shape, flow, moves, states)?;
    'sweeps: while sweep(alloc, shape, flow, moves, states)? {}
    Ok(())
}

/// What is known at a node before anything is followed.
fn first_state<S: State>(
    alloc: Global,
    shape: Shape,
    lines: &[u32],
    at_first: bool,
) -> Result<S, NoMemory>
    requires shape { IsShape shape }
    requires ascending { AreAscending lines.now }
    ensures { IfOk result (IsFirst S.known S.shape_of S.lines_of S.IsWithin S.Covers S.start S.IsFair shape lines.now at_first) }
{
    if at_first {
        S::first(alloc, shape, lines)
    } else {
        S::unreached(alloc, shape, lines)
    }
}

/// The states before anything is followed: that of the first node, and elsewhere that where no run comes.
fn first_states<S: State>(
    alloc: Global,
    shape: Shape,
    flow: &Flow,
    first: u32,
) -> Result<Vec<S>, NoMemory>
    requires shape { IsShape shape }
    requires ascending { AreAscending flow.now.lines }
    ensures long { IfOk result (λ states. length states.items ≡ length flow.now.nodes) }
    ensures each { IfOk result (λ states. AreFirst S.known S.shape_of S.lines_of S.IsWithin S.Covers S.start S.IsFair shape flow.now.lines first states.items) }
{
    let mut states = Vec::with_capacity(alloc, flow.nodes.len())?;
    for node in 0..flow.nodes.len() {
        let state = first_state(alloc, shape, flow.lines.as_slice(), node == first as usize)?;
        states.push(state)?;
    }
    Ok(states)
}

/// The least solution over some moves of a flow from a first node.
pub(crate) fn solve<S: State>(
    alloc: Global,
    shape: Shape,
    flow: &Flow,
    moves: &[Move],
    first: u32,
) -> Result<Vec<S>, NoMemory>
    requires shape { IsShape shape }
    requires flow { IsFlow flow.now }
    requires moves { AreWithin flow.now moves.now }
    ensures long { IfOk result (λ states. length states.items ≡ length flow.now.nodes) }
    ensures alike { IfOk result (λ states. AreAlike (IsOf S.known S.shape_of S.lines_of S.IsWithin shape flow.now.lines) states.items) }
    ensures least { IfOk result (λ states. IsLeast S.known S.Covers S.accessed S.start S.IsFair shape flow.now moves.now first states.items) }
{
    S::order();
    let mut states = first_states(alloc, shape, flow, first)?;
    settle(alloc, shape, flow, moves, states.as_mut_slice())?;
    Ok(states)
}
