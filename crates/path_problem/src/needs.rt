//! The needs of loops, and the prices of loops and totals that follow.
ghost use Rattle.std.specs.Prelude.{◌≡◌, ℕ, ◌+◌, ◌<◌, ◌≤◌, [], List, length, map, if◌then◌else◌, IfOk};
ghost use Rattle.std.specs.List.{All, zip};
ghost use Rattle.std.specs.Option.{ForSome};
ghost use Rattle.path_graph.specs.Conditions.{IsGraph, IsBounded, HasPrices, AreBounded};
ghost use Rattle.path_problem.specs.Layout.{IsLayout};
ghost use Rattle.path_problem.specs.Potential.{NoClosedGain};
ghost use Rattle.path_problem.specs.Need.{HasNeeds, IsLoopLarge, is_chosen, loop_price, AreAllNeeds};
ghost use Rattle.path_problem.specs.Need.{AreTotalPrices, IsRaised};

use crate::layout::{Layout, layout_of};
use crate::part::need_of_loop;
use crate::path_error::PathError;
use crate::window::{Rates, add_toll, own_weights};
use path_graph::{Graph, LoopArcs, LoopPrices};
use std::alloc::Global;
use wx_text::{List, NoMemory};

/// The prices of loops and totals, when some totals pay for the back arcs of their loops.
///
/// A loop needs the least number for which no closed walk inside it gains; inner loops come first, and pay for what they
/// allow each time they are entered. `LoopLarge` names the first loop that no number up to `LARGEST` serves.
///
/// For each loop the arcs of its members are gone through, in a few rounds for each number that is tried.
pub fn prices(alloc: Global, graph: &Graph, chosen: &[bool]) -> Result<LoopPrices, PathError>
    requires graph { IsGraph graph.now }
    requires bounded { IsBounded graph.now }
    requires chosen { length chosen.now ≡ length graph.now.totals }
    ensures ok { IfOk result (λ prices. HasNeeds graph.now chosen.now prices) }
    ensures priced { IfOk result (HasPrices graph.now) }
    ensures small { IfOk result AreBounded }
    ensures closed { IfOk result (NoClosedGain graph.now) }
    ensures large { (n : ℕ) → result ≡ Err (PathError.LoopLarge n) → IsLoopLarge graph.now chosen.now n }
    ensures vertex { (n : ℕ) → result ≡ Err (PathError.VertexLarge n) → ⊥ }
{
    let layout = layout_of(alloc, graph)?;
    prices_on(alloc, &layout, chosen)
}

/// The prices on a graph of which is known what is found once.
pub(crate) fn prices_on(
    alloc: Global,
    layout: &Layout<'_>,
    chosen: &[bool],
) -> Result<LoopPrices, PathError>
    requires layout { IsLayout layout.now }
    requires bounded { IsBounded layout.now.graph.now }
    requires chosen { length chosen.now ≡ length layout.now.graph.now.totals }
    ensures ok { IfOk result (λ prices. HasNeeds layout.now.graph.now chosen.now prices) }
    ensures priced { IfOk result (HasPrices layout.now.graph.now) }
    ensures small { IfOk result AreBounded }
    ensures closed { IfOk result (NoClosedGain layout.now.graph.now) }
    ensures large { (n : ℕ) → result ≡ Err (PathError.LoopLarge n)
        → IsLoopLarge layout.now.graph.now chosen.now n }
    ensures vertex { (n : ℕ) → result ≡ Err (PathError.VertexLarge n) → ⊥ }
{
    let needs = needs_of(alloc, layout, chosen)?;
    let loops = loop_prices(alloc, layout.graph, chosen, needs.as_slice())?;
    let totals = total_prices(alloc, layout.graph, chosen, needs.as_slice())?;
    Ok(LoopPrices { loops, totals })
}

/// The needs of all loops.
fn needs_of(alloc: Global, layout: &Layout<'_>, chosen: &[bool]) -> Result<Vec<u64>, PathError>
    requires layout { IsLayout layout.now }
    requires bounded { IsBounded layout.now.graph.now }
    requires chosen { length chosen.now ≡ length layout.now.graph.now.totals }
    ensures ok { IfOk result (λ needs. AreAllNeeds layout.now.graph.now chosen.now needs.items) }
    ensures large { (n : ℕ) → result ≡ Err (PathError.LoopLarge n)
        → IsLoopLarge layout.now.graph.now chosen.now n }
    ensures vertex { (n : ℕ) → result ≡ Err (PathError.VertexLarge n) → ⊥ }
{
    let count = layout.graph.arcs.len();
    let mut weights = vec![in alloc; 0i128; count]?;
    let mut stamps = vec![in alloc; 0u64; count]?;
    let mut places = vec![in alloc; 0usize; layout.graph.finish.len()]?;
    needs_within(
        alloc,
        layout,
        chosen,
        weights.as_mut_slice(),
        stamps.as_mut_slice(),
        places.as_mut_slice(),
    )
}

/// The needs of all loops, for which room is given: weights and stamps of arcs, and places of vertices.
fn needs_within(
    alloc: Global,
    layout: &Layout<'_>,
    chosen: &[bool],
    weights: &mut [i128],
    stamps: &mut [u64],
    places: &mut [usize],
) -> Result<Vec<u64>, PathError>
    requires layout { IsLayout layout.now }
    requires bounded { IsBounded layout.now.graph.now }
    requires chosen { length chosen.now ≡ length layout.now.graph.now.totals }
    requires weights { length weights.old ≡ length layout.now.graph.now.arcs }
    requires stamps { length stamps.old ≡ length layout.now.graph.now.arcs }
    requires places { length places.old ≡ length layout.now.graph.now.finish }
    ensures ok { IfOk result (λ needs. AreAllNeeds layout.now.graph.now chosen.now needs.items) }
    ensures large { (n : ℕ) → result ≡ Err (PathError.LoopLarge n)
        → IsLoopLarge layout.now.graph.now chosen.now n }
    ensures vertex { (n : ℕ) → result ≡ Err (PathError.VertexLarge n) → ⊥ }
{
    let graph = layout.graph;
    own_weights(graph, 0, weights, stamps);
    let mut needs = Vec::with_capacity(alloc, graph.loops.len())?;
    for number in 0..graph.loops.len() {
        match need_of_loop(alloc, layout, number, weights, places)? {
            Some(need) => {
                let arcs = &graph.loops.as_slice()[number];
                let rates = Rates {
                    turns: turns_of(chosen, arcs),
                    price: need,
                    loss: need,
                };
                add_toll(weights, stamps, 0, arcs, rates, number);
                needs.push(need)?;
            }
            None => {
                return Err(PathError::LoopLarge {
                    number: number as u64,
                });
            }
        }
    }
    Ok(needs)
}

/// How many turns an entry of a loop is worth: none where a chosen total pays.
fn turns_of(chosen: &[bool], arcs: &LoopArcs) -> u64
    requires { ForSome arcs.now.total (λ k. k < length chosen.now) }
    ensures turns { result ≡ (if is_chosen chosen.now arcs.now.total then 0 else arcs.now.maxcount) }
{
    if is_paid(chosen, arcs.total) {
        0
    } else {
        arcs.maxcount
    }
}

/// Whether a loop's total is among those chosen.
fn is_paid(chosen: &[bool], total: Option<u32>) -> bool
    requires { ForSome total (λ k. k < length chosen.now) }
    ensures { result ≡ is_chosen chosen.now total }
{
    match total {
        Some(number) => chosen[number as usize],
        None => false,
    }
}

/// The price of each loop: its need, unless a chosen total pays.
fn loop_prices(
    alloc: Global,
    graph: &Graph,
    chosen: &[bool],
    needs: &[u64],
) -> Result<List<u64>, NoMemory>
    requires graph { IsGraph graph.now }
    requires chosen { length chosen.now ≡ length graph.now.totals }
    requires needs { length needs.now ≡ length graph.now.loops }
    ensures { IfOk result (λ prices. prices ≡ map (loop_price chosen.now) (zip graph.now.loops needs.now)) }
{
    let mut prices = Vec::with_capacity(alloc, needs.len())?;
    for (number, need) in needs.iter().enumerate() {
        let paid = is_paid(chosen, graph.loops.as_slice()[number].total);
        prices.push(if paid { 0 } else { *need })?;
    }
    Ok(List::new(prices))
}

/// The price of each total: the greatest need of its loops if it is chosen, and else 0.
fn total_prices(
    alloc: Global,
    graph: &Graph,
    chosen: &[bool],
    needs: &[u64],
) -> Result<List<u64>, NoMemory>
    requires graph { IsGraph graph.now }
    requires chosen { length chosen.now ≡ length graph.now.totals }
    requires needs { length needs.now ≡ length graph.now.loops }
    ensures { IfOk result (AreTotalPrices graph.now chosen.now needs.now) }
{
    let mut prices = vec![in alloc; 0u64; chosen.len()]?;
    for (number, need) in needs.iter().enumerate() {
        raise(
            prices.as_mut_slice(),
            chosen,
            graph.loops.as_slice()[number].total,
            *need,
        );
    }
    Ok(List::new(prices))
}

/// Raises the price of a total to a need, if it is chosen.
fn raise(prices: &mut [u64], chosen: &[bool], total: Option<u32>, need: u64)
    requires total { ForSome total (λ k. k < length chosen.now) }
    requires prices { length prices.old ≡ length chosen.now }
    ensures { IsRaised chosen.now total need prices.old prices.new }
{
    if let Some(number) = total {
        let number = number as usize;
        if chosen[number] {
            prices[number] = prices[number].max(need);
        }
    }
}
