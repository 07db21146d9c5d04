//! The weights of arcs that follow one another, put together loop by loop. No memory is taken.
ghost use Rattle.std.specs.Prelude.{◌≡◌, ℕ, ◌+◌, ◌*◌, ◌^◌, ◌<◌, ◌≤◌, List, [], ◌∷◌, ◌++◌, length, ◌+ℤ◌, FitsSigned};
ghost use Rattle.std.specs.Option.{ForSome};
ghost use Rattle.std.specs.Int.{w128};
ghost use Rattle.std.specs.List.{All};
ghost use Rattle.path_graph.specs.Conditions.{IsGraph, IsBounded, HasPrices, AreBounded, IsWithin};
ghost use Rattle.path_problem.specs.Weight.{Toll, price_tolls};
ghost use Rattle.path_problem.specs.Weight.{total_price as total_price_of};
ghost use Rattle.path_problem.specs.Window.{IsAdded, AreWeights, toll_of, weight_limit};

use path_graph::{Graph, LARGEST, LoopArcs, LoopPrices};

/// Adds an amount at each of some arcs, once for each that is listed, however often. A stamp tells which have it
/// already.
pub(crate) fn add_listed(
    weights: &mut [i128],
    stamps: &mut [u64],
    first: usize,
    listed: &[u64],
    stamp: u64,
    amount: i128,
)
    requires stamps { length stamps.old ≡ length weights.old }
    requires fresh { All (λ s. s < stamp) stamps.old }
    requires fits { All (λ z. FitsSigned w128 (z +ℤ amount)) weights.old }
    ensures added { IsAdded listed.now first amount weights.old weights.new }
    ensures used { All (λ s. s ≤ stamp) stamps.new }
{
    for number in listed {
        let number = *number as usize;
        if number >= first && number - first < weights.len() {
            let at = number - first;
            if stamps[at] != stamp {
                stamps[at] = stamp;
                weights[at] += amount;
            }
        }
    }
}

/// What the arcs of a loop gain and lose.
#[derive(Clone, Copy)]
pub(crate) struct Rates {
    /// How many turns an entry is worth.
    pub(crate) turns: u64,
    /// The price of a turn.
    pub(crate) price: u64,
    /// What a back arc loses.
    pub(crate) loss: u64,
}

/// Adds the toll of the loop with a number.
pub(crate) fn add_toll(
    weights: &mut [i128],
    stamps: &mut [u64],
    first: usize,
    arcs: &LoopArcs,
    rates: Rates,
    number: usize,
)
    requires stamps { length stamps.old ≡ length weights.old }
    requires number { number < 2 ^ 16 }
    requires turns { rates.turns < 2 ^ 32 }
    requires price { rates.price ≤ LARGEST }
    requires loss { rates.loss ≤ 2 * LARGEST }
    requires fresh { All (λ s. s ≤ 2 * number) stamps.old }
    requires small { All (IsWithin (weight_limit number)) weights.old }
    ensures weights { (g : Graph) (tolls : List Toll) → AreWeights g tolls first weights.old
        → AreWeights g (tolls ++ toll_of arcs.now rates ∷ []) first weights.new }
    ensures within { All (IsWithin (weight_limit (number + 1))) weights.new }
    ensures used { All (λ s. s ≤ 2 * (number + 1)) stamps.new }
{
    let gain = i128::from(rates.turns) * i128::from(rates.price);
    let stamp = 2 * number as u64 + 1;
    add_listed(weights, stamps, first, arcs.entries.as_slice(), stamp, gain);
    add_listed(
        weights,
        stamps,
        first,
        arcs.back.as_slice(),
        stamp + 1,
        -i128::from(rates.loss),
    );
}

/// Puts in the full weights of the arcs from one on. What was in the two slices before does not matter.
pub(crate) fn full_weights(
    graph: &Graph,
    prices: &LoopPrices,
    first: usize,
    weights: &mut [i128],
    stamps: &mut [u64],
)
    requires graph { IsGraph graph.now }
    requires bounded { IsBounded graph.now }
    requires prices { HasPrices graph.now prices.now }
    requires few { AreBounded prices.now }
    requires arcs { first + length weights.old ≤ length graph.now.arcs }
    requires stamps { length stamps.old ≡ length weights.old }
    ensures weights { AreWeights graph.now (price_tolls graph.now prices.now) first weights.new }
    ensures within { All (IsWithin (weight_limit (2 ^ 16))) weights.new }
{
    own_weights(graph, first, weights, stamps);
    for number in 0..graph.loops.len() {
        let arcs = &graph.loops.as_slice()[number];
        let price = prices.loops.as_slice()[number];
        let rates = Rates {
            turns: arcs.maxcount,
            price,
            loss: price + total_price(prices, arcs.total),
        };
        add_toll(weights, stamps, first, arcs, rates, number);
    }
}

/// Puts in the weights of the arcs from one on, without prices, and no stamps.
pub(crate) fn own_weights(graph: &Graph, first: usize, weights: &mut [i128], stamps: &mut [u64])
    requires bounded { IsBounded graph.now }
    requires arcs { first + length weights.old ≤ length graph.now.arcs }
    requires stamps { length stamps.old ≡ length weights.old }
    ensures weights { AreWeights graph.now [] first weights.new }
    ensures within { All (IsWithin (weight_limit 0)) weights.new }
    ensures fresh { All (λ s. s ≤ 0) stamps.new }
{
    for at in 0..weights.len() {
        weights[at] = graph.arcs.as_slice()[first + at].weight;
        stamps[at] = 0;
    }
}

/// The price of a loop's total, 0 where it has none.
fn total_price(prices: &LoopPrices, total: Option<u32>) -> u64
    requires few { AreBounded prices.now }
    requires total { ForSome total (λ k. k < length prices.now.totals) }
    ensures price { result ≡ total_price_of prices.now.totals total }
    ensures small { result ≤ LARGEST }
{
    match total {
        Some(number) => prices.totals.as_slice()[number as usize],
        None => 0,
    }
}
