ghost use Rattle.std.specs.Prelude.{◌≡◌, ℕ, ◌+◌, ◌^◌, ◌<◌, ◌≤◌, ◌↔◌, length, IsOk, MatchOption};
ghost use Rattle.std.specs.List.{All};
ghost use Rattle.path_graph.specs.Conditions.{IsGraph, IsBounded, HasPrices, AreBounded, IsWithin};
ghost use Rattle.path_problem.specs.Potential.{Cover, CoversVertex, IsBadVertex, IsBadArc, IsFirstBadArc, AreCovered};
ghost use Rattle.path_problem.specs.Weight.{price_tolls};
ghost use Rattle.path_problem.specs.Window.{AreWeights, weight_limit};

use crate::bad_path::BadPath;
use crate::window::full_weights;
use path_graph::{Graph, LARGEST, LoopPrices};

/// How many arcs are looked at together.
const WINDOW: usize = 8192;

/// Whether potentials meet the inequality of each vertex and each arc.
///
/// The lists of all loops are gone through once for every 8,192 arcs.
pub fn check(graph: &Graph, prices: &LoopPrices, potentials: &[u64]) -> Result<(), BadPath>
    requires graph { IsGraph graph.now }
    requires bounded { IsBounded graph.now }
    requires prices { HasPrices graph.now prices.now }
    requires few { AreBounded prices.now }
    requires potentials { length potentials.now ≡ length graph.now.finish }
    requires small { All (λ p. p ≤ LARGEST) potentials.now }
    ensures ok { IsOk result ↔ Cover graph.now prices.now potentials.now }
    ensures vertex { (v : ℕ) → (result ≡ Err (BadPath.BadVertex v)) ↔ IsBadVertex graph.now potentials.now v }
    ensures arc { (a : ℕ) → (result ≡ Err (BadPath.BadArc a)) ↔ IsBadArc graph.now prices.now potentials.now a }
{
    if let Some(vertex) = bad_vertex(graph, potentials) {
        return Err(BadPath::BadVertex {
            vertex: vertex as u64,
        });
    }
    match bad_arc(graph, prices, potentials) {
        Some(arc) => Err(BadPath::BadArc { arc: arc as u64 }),
        None => Ok(()),
    }
}

/// The first vertex whose potential is below its finish.
fn bad_vertex(graph: &Graph, potentials: &[u64]) -> Option<usize>
    requires potentials { length potentials.now ≡ length graph.now.finish }
    ensures { MatchOption result ((v : ℕ) → v < length graph.now.finish → CoversVertex graph.now potentials.now v)
        (IsBadVertex graph.now potentials.now) }
{
    for (vertex, finish) in graph.finish.as_slice().iter().enumerate() {
        if *finish > i128::from(potentials[vertex]) {
            return Some(vertex);
        }
    }
    None
}

/// The first arc whose inequality fails.
fn bad_arc(graph: &Graph, prices: &LoopPrices, potentials: &[u64]) -> Option<usize>
    requires graph { IsGraph graph.now }
    requires bounded { IsBounded graph.now }
    requires prices { HasPrices graph.now prices.now }
    requires few { AreBounded prices.now }
    requires potentials { length potentials.now ≡ length graph.now.finish }
    requires small { All (λ p. p ≤ LARGEST) potentials.now }
    ensures { MatchOption result (AreCovered graph.now prices.now potentials.now 0 (length graph.now.arcs))
        (IsFirstBadArc graph.now prices.now potentials.now 0) }
{
    let count = graph.arcs.len();
    let mut weights = [0i128; WINDOW];
    let mut stamps = [0u64; WINDOW];
    for window in 0..count.div_ceil(WINDOW) {
        let first = window * WINDOW;
        let size = WINDOW.min(count - first);
        full_weights(
            graph,
            prices,
            first,
            &mut weights[..size],
            &mut stamps[..size],
        );
        match bad_arc_from(graph, prices, potentials, first, &weights[..size]) {
            Some(arc) => return Some(arc),
            None => {}
        }
    }
    None
}

/// The first arc whose inequality fails, among those from one on whose weights are at hand.
fn bad_arc_from(
    graph: &Graph,
    prices: &LoopPrices,
    potentials: &[u64],
    first: usize,
    weights: &[i128],
) -> Option<usize>
    requires graph { IsGraph graph.now }
    requires arcs { first + length weights.now ≤ length graph.now.arcs }
    requires weights { AreWeights graph.now (price_tolls graph.now prices.now) first weights.now }
    requires within { All (IsWithin (weight_limit (2 ^ 16))) weights.now }
    requires potentials { length potentials.now ≡ length graph.now.finish }
    ensures { MatchOption result (AreCovered graph.now prices.now potentials.now first (first + length weights.now))
        (IsFirstBadArc graph.now prices.now potentials.now first) }
{
    for (at, weight) in weights.iter().enumerate() {
        let arc = &graph.arcs.as_slice()[first + at];
        let target = i128::from(potentials[arc.to as usize]);
        let source = i128::from(potentials[arc.from as usize]);
        if *weight + target > source {
            return Some(first + at);
        }
    }
    None
}
