//! Tests of the sizes and numbers up to which the path problem is solved.
ghost use Rattle.std.specs.Prelude.{◌≡◌, ℕ, ◌^◌, ◌<◌, ◌≤◌, length, slice_index, IsTrue, pos, ◌≤ℤ◌};
ghost use Rattle.std.specs.List.{All};
ghost use Rattle.path_graph.specs.Conditions.{IsBounded, IsWithin, HasPrices, AreBounded};
ghost use Rattle.path_graph.specs.Graph.{arc_at, loop_at, finish_at};

use crate::graph::{Graph, LARGEST, LoopPrices};

/// 2^80, the greatest weight and finish to either side of 0.
const LIMIT: i128 = 1_208_925_819_614_629_174_706_176;

/// 2^32, above the greatest count of a loop and of a total.
const COUNTS: u64 = 4_294_967_296;

/// Whether sizes, weights, finishes and counts of a graph are within the bounds.
pub fn is_bounded(graph: &Graph) -> bool
    ensures { IsTrue result → IsBounded graph.now }
{
    graph.finish.len() <= 262_144
        && graph.loops.len() <= 65_536
        && has_small_weights(graph)
        && has_small_finishes(graph)
        && has_small_counts(graph)
        && has_small_totals(graph)
}

/// Whether each finish is at least 0.
pub fn has_natural_finishes(graph: &Graph) -> bool
    ensures { IsTrue result → (v : ℕ) → v < length graph.now.finish → pos 0 ≤ℤ finish_at graph.now v }
{
    for finish in graph.finish.as_slice() {
        if *finish < 0 {
            return false;
        }
    }
    true
}

/// Whether there is a price for each loop and each total and a potential for each vertex, all at most `LARGEST`.
pub fn fit(graph: &Graph, prices: &LoopPrices, potentials: &[u64]) -> bool
    ensures prices { IsTrue result → HasPrices graph.now prices.now }
    ensures few { IsTrue result → AreBounded prices.now }
    ensures count { IsTrue result → length potentials.now ≡ length graph.now.finish }
    ensures small { IsTrue result → All (λ p. p ≤ LARGEST) potentials.now }
{
    if prices.loops.len() != graph.loops.len() || prices.totals.len() != graph.totals.len() {
        return false;
    }
    if potentials.len() != graph.finish.len() || !are_small(potentials) {
        return false;
    }
    are_small(prices.loops.as_slice()) && are_small(prices.totals.as_slice())
}

/// Whether all numbers are at most `LARGEST`.
fn are_small(numbers: &[u64]) -> bool
    ensures { IsTrue result → All (λ n. n ≤ LARGEST) numbers.now }
{
    for number in numbers {
        if *number > LARGEST {
            return false;
        }
    }
    true
}

/// Whether a number is at most 2^80, to either side of 0.
fn is_small(number: i128) -> bool
    ensures { IsTrue result → IsWithin (2 ^ 80) number }
{
    -LIMIT <= number && number <= LIMIT
}

/// Whether all weights are small.
fn has_small_weights(graph: &Graph) -> bool
    ensures { IsTrue result → (a : ℕ) → a < length graph.now.arcs → IsWithin (2 ^ 80) (arc_at graph.now a).weight }
{
    for arc in graph.arcs.as_slice() {
        if !is_small(arc.weight) {
            return false;
        }
    }
    true
}

/// Whether all finishes are small.
fn has_small_finishes(graph: &Graph) -> bool
    ensures { IsTrue result → (v : ℕ) → v < length graph.now.finish → IsWithin (2 ^ 80) (finish_at graph.now v) }
{
    for finish in graph.finish.as_slice() {
        if !is_small(*finish) {
            return false;
        }
    }
    true
}

/// Whether the counts of all loops are below 2^32.
fn has_small_counts(graph: &Graph) -> bool
    ensures { IsTrue result → (l : ℕ) → l < length graph.now.loops → (loop_at graph.now l).maxcount < 2 ^ 32 }
{
    for arcs in graph.loops.as_slice() {
        if arcs.maxcount >= COUNTS {
            return false;
        }
    }
    true
}

/// Whether all totals are below 2^32.
fn has_small_totals(graph: &Graph) -> bool
    ensures { IsTrue result → (k : ℕ) → k < length graph.now.totals → slice_index graph.now.totals k < 2 ^ 32 }
{
    for total in graph.totals.as_slice() {
        if *total >= COUNTS {
            return false;
        }
    }
    true
}
