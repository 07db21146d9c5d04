//! The choice of the totals that pay for the back arcs of their loops.
ghost use Rattle.std.specs.Prelude.{◌≡◌, ℕ, ◌+◌, ◌<◌, ◌≤◌, length, replicate, true, IfOk, if◌then◌else◌, pos, ◌≤ℤ◌};
ghost use Rattle.path_problem.specs.Choice.{IsChosen, IsTooLarge};
ghost use Rattle.path_graph.specs.Conditions.{IsGraph, IsBounded};
ghost use Rattle.path_graph.specs.Graph.{finish_at};
ghost use Rattle.path_problem.specs.Layout.{IsLayout};
ghost use Rattle.path_problem.specs.Solution.{TurnsSoFar};

use crate::layout::{Layout, layout_of};
use crate::path_error::PathError;
use crate::solution::{Outcome, is_less, solve};
use path_graph::{Graph, LoopPrices};
use std::alloc::Global;
use wx_text::{List, NoMemory};

/// A choice of totals with its prices and potentials.
#[derive(Debug, Drop)]
pub struct Choice {
    /// For each total whether it pays for the back arcs of its loops.
    pub chosen: List<bool>,
    /// The prices when these totals pay.
    pub prices: LoopPrices,
    /// For each vertex the most that a walk from it comes to at these prices, with its last finish.
    pub potentials: List<u64>,
}

/// The choice of totals: all are chosen at first, and each in its turn is given up if that lessens the value.
///
/// The value is the potential of the start, with what the origin's count allows at its price and what each total allows
/// at its own. Where a need or a potential passes `LARGEST` it is more than every number. An error is that of `prices`,
/// or else of `potentials`, for the choice.
///
/// Prices and potentials are worked out once, and once more for each total.
pub fn choose(alloc: Global, graph: &Graph) -> Result<Choice, PathError>
    requires graph { IsGraph graph.now }
    requires bounded { IsBounded graph.now }
    requires finishes { (v : ℕ) → v < length graph.now.finish → pos 0 ≤ℤ finish_at graph.now v }
    ensures ok { IfOk result (IsChosen graph.now) }
    ensures large { (n : ℕ) → result ≡ Err (PathError.LoopLarge n) → IsTooLarge graph.now (PathError.LoopLarge n) }
    ensures vertex { (v : ℕ) → result ≡ Err (PathError.VertexLarge v)
        → IsTooLarge graph.now (PathError.VertexLarge v) }
{
    let mut chosen = vec![in alloc; true; graph.totals.len()]?;
    match take_turns(alloc, graph, chosen.as_mut_slice())? {
        Outcome::Solved(best) => Ok(Choice {
            chosen: List::new(chosen),
            prices: best.prices,
            potentials: List::new(best.potentials),
        }),
        Outcome::TooLarge(refusal) => Err(refusal),
    }
}

/// Gives each total its turn. All are chosen at first; the answer is what those come to that are chosen in the end.
fn take_turns(alloc: Global, graph: &Graph, chosen: &mut [bool]) -> Result<Outcome, NoMemory>
    requires graph { IsGraph graph.now }
    requires bounded { IsBounded graph.now }
    requires finishes { (v : ℕ) → v < length graph.now.finish → pos 0 ≤ℤ finish_at graph.now v }
    requires chosen { chosen.old ≡ replicate (length graph.now.totals) true }
    ensures { IfOk result (TurnsSoFar graph.now (length graph.now.totals) chosen.new) }
{
    let layout = layout_of(alloc, graph)?;
    take_turns_on(alloc, &layout, chosen)
}

/// Gives each total its turn, on a graph of which is known what is found once.
fn take_turns_on(
    alloc: Global,
    layout: &Layout<'_>,
    chosen: &mut [bool],
) -> Result<Outcome, NoMemory>
    requires layout { IsLayout layout.now }
    requires bounded { IsBounded layout.now.graph.now }
    requires finishes { let g = layout.now.graph.now in (v : ℕ) → v < length g.finish → pos 0 ≤ℤ finish_at g v }
    requires chosen { chosen.old ≡ replicate (length layout.now.graph.now.totals) true }
    ensures { let g = layout.now.graph.now in IfOk result (TurnsSoFar g (length g.totals) chosen.new) }
{
    let mut best = solve(alloc, layout, chosen)?;
    for total in 0..chosen.len() {
        best = take_turn(alloc, layout, chosen, total, best)?;
    }
    Ok(best)
}

/// Gives a total its turn, when those before it had theirs.
fn take_turn(
    alloc: Global,
    layout: &Layout<'_>,
    chosen: &mut [bool],
    total: usize,
    best: Outcome,
) -> Result<Outcome, NoMemory>
    requires layout { IsLayout layout.now }
    requires bounded { IsBounded layout.now.graph.now }
    requires finishes { let g = layout.now.graph.now in (v : ℕ) → v < length g.finish → pos 0 ≤ℤ finish_at g v }
    requires total { total < length chosen.old }
    requires turns { TurnsSoFar layout.now.graph.now total chosen.old best }
    ensures { IfOk result (TurnsSoFar layout.now.graph.now (total + 1) chosen.new) }
{
    chosen[total] = false;
    let without = solve(alloc, layout, chosen)?;
    let is_given_up = is_less(&without, &best);
    chosen[total] = !is_given_up;
    Ok(one_of(is_given_up, without, best))
}

/// The first of two outcomes, or else the second.
fn one_of(is_first: bool, first: Outcome, second: Outcome) -> Outcome
    ensures { result ≡ (if is_first then first else second) }
{
    if is_first { first } else { second }
}
