//! The most that walks from each vertex come to.
ghost use Rattle.std.specs.Prelude.{◌≡◌, ℕ, ◌+◌, ◌<◌, ◌≤◌, false, length, slice_index_or, IfOk, pos, ◌≤ℤ◌};
ghost use Rattle.std.specs.List.{All, Contains};
ghost use Rattle.path_graph.specs.Conditions.{IsGraph, IsBounded, HasPrices, AreBounded};
ghost use Rattle.path_graph.specs.Graph.{arc_at, finish_at};
ghost use Rattle.path_problem.specs.Layout.{IsLayout};
ghost use Rattle.path_problem.specs.Potential.{ArePotentials, IsVertexLarge, NoClosedGain};
ghost use Rattle.path_problem.specs.Whole.{AreArcs, AreNumbers, IsFirstAbove};

use crate::layout::{Layout, arcs_in_order, layout_of};
use crate::net::{Link, Settlement, settle};
use crate::path_error::PathError;
use crate::window::full_weights;
use path_graph::{Graph, LARGEST, LoopPrices};
use std::alloc::Global;
use wx_text::NoMemory;

/// For each vertex the most that a walk from it comes to, with the finish of the walk's last vertex.
///
/// `VertexLarge` names the first vertex for which that is above `LARGEST`.
pub fn potentials(alloc: Global, graph: &Graph, prices: &LoopPrices) -> Result<Vec<u64>, PathError>
    requires graph { IsGraph graph.now }
    requires bounded { IsBounded graph.now }
    requires prices { HasPrices graph.now prices.now }
    requires few { AreBounded prices.now }
    requires closed { NoClosedGain graph.now prices.now }
    requires finishes { (v : ℕ) → v < length graph.now.finish → pos 0 ≤ℤ finish_at graph.now v }
    ensures ok { IfOk result (λ potentials. ArePotentials graph.now prices.now potentials.items) }
    ensures large { (v : ℕ) → result ≡ Err (PathError.VertexLarge v) → IsVertexLarge graph.now prices.now v }
    ensures never { (n : ℕ) → result ≡ Err (PathError.LoopLarge n) → ⊥ }
{
    let layout = layout_of(alloc, graph)?;
    potentials_on(alloc, &layout, prices)
}

/// The potentials on a graph of which is known what is found once.
pub(crate) fn potentials_on(
    alloc: Global,
    layout: &Layout<'_>,
    prices: &LoopPrices,
) -> Result<Vec<u64>, PathError>
    requires layout { IsLayout layout.now }
    requires bounded { IsBounded layout.now.graph.now }
    requires prices { HasPrices layout.now.graph.now prices.now }
    requires few { AreBounded prices.now }
    requires closed { NoClosedGain layout.now.graph.now prices.now }
    requires finishes { let g = layout.now.graph.now in (v : ℕ) → v < length g.finish → pos 0 ≤ℤ finish_at g v }
    ensures ok { IfOk result (λ potentials. ArePotentials layout.now.graph.now prices.now potentials.items) }
    ensures large { (v : ℕ) → result ≡ Err (PathError.VertexLarge v)
        → IsVertexLarge layout.now.graph.now prices.now v }
    ensures never { (n : ℕ) → result ≡ Err (PathError.LoopLarge n) → ⊥ }
{
    let links = priced_links(alloc, layout, prices)?;
    match settle(alloc, links.as_slice(), 0, layout.graph.finish.as_slice())? {
        Settlement::Settled(values) => numbers(alloc, values.as_slice()),
        Settlement::Gains(_) => unreachable!(),
    }
}

/// All arcs as links with their full weights, in an order in which few rounds settle labels.
fn priced_links(
    alloc: Global,
    layout: &Layout<'_>,
    prices: &LoopPrices,
) -> Result<Vec<Link>, NoMemory>
    requires layout { IsLayout layout.now }
    requires bounded { IsBounded layout.now.graph.now }
    requires prices { HasPrices layout.now.graph.now prices.now }
    requires few { AreBounded prices.now }
    ensures { IfOk result (λ links. AreArcs layout.now.graph.now prices.now links.items) }
{
    let count = layout.graph.arcs.len();
    let mut weights = vec![in alloc; 0i128; count]?;
    let mut stamps = vec![in alloc; 0u64; count]?;
    let order = arcs_in_order(alloc, layout)?;
    links_of(
        alloc,
        layout.graph,
        prices,
        order.as_slice(),
        weights.as_mut_slice(),
        stamps.as_mut_slice(),
    )
}

/// The arcs with some numbers as links with their full weights, for which room is given.
fn links_of(
    alloc: Global,
    graph: &Graph,
    prices: &LoopPrices,
    order: &[usize],
    weights: &mut [i128],
    stamps: &mut [u64],
) -> Result<Vec<Link>, NoMemory>
    requires graph { IsGraph graph.now }
    requires bounded { IsBounded graph.now }
    requires prices { HasPrices graph.now prices.now }
    requires few { AreBounded prices.now }
    requires order { All (λ a. a < length graph.now.arcs) order.now }
    requires each { (a : ℕ) → a < length graph.now.arcs → Contains order.now a }
    requires weights { length weights.old ≡ length graph.now.arcs }
    requires stamps { length stamps.old ≡ length graph.now.arcs }
    ensures { IfOk result (λ links. AreArcs graph.now prices.now links.items) }
{
    full_weights(graph, prices, 0, weights, stamps);
    let mut links = Vec::with_capacity(alloc, order.len())?;
    for number in order {
        links.push(link_of(graph, weights, *number))?;
    }
    Ok(links)
}

/// The arc with a number as a link with the weight at its place.
fn link_of(graph: &Graph, weights: &[i128], number: usize) -> Link
    requires number { number < length graph.now.arcs }
    requires weights { length weights.now ≡ length graph.now.arcs }
    ensures from { result.from ≡ (arc_at graph.now number).from }
    ensures to { result.to ≡ (arc_at graph.now number).to }
    ensures weight { result.weight ≡ slice_index_or weights.now number (pos 0) }
    ensures back { result.back ≡ false }
    ensures arc { result.arc ≡ number }
{
    let arc = &graph.arcs.as_slice()[number];
    Link {
        from: arc.from as usize,
        to: arc.to as usize,
        weight: weights[number],
        back: false,
        arc: number,
    }
}

/// A value as a natural number.
fn number_of(value: i128) -> u64
    requires low { pos 0 ≤ℤ value }
    requires high { value ≤ℤ pos LARGEST }
    ensures value { pos result ≡ value }
    ensures small { result ≤ LARGEST }
{
    value as u64
}

/// Values as potentials, or the first of them that is above `LARGEST`.
fn numbers(alloc: Global, values: &[i128]) -> Result<Vec<u64>, PathError>
    requires { All (λ z. pos 0 ≤ℤ z) values.now }
    ensures ok { IfOk result (λ numbers. AreNumbers values.now numbers.items) }
    ensures large { (v : ℕ) → result ≡ Err (PathError.VertexLarge v) → IsFirstAbove values.now v }
    ensures never { (n : ℕ) → result ≡ Err (PathError.LoopLarge n) → ⊥ }
{
    let mut numbers = Vec::with_capacity(alloc, values.len())?;
    for (vertex, value) in values.iter().enumerate() {
        if *value > i128::from(LARGEST) {
            return Err(PathError::VertexLarge {
                number: vertex as u64,
            });
        }
        numbers.push(number_of(*value))?;
    }
    Ok(numbers)
}
