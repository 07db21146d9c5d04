//! The part of a graph inside a loop, and the least number that serves it.
ghost use Rattle.std.specs.Prelude.{◌≡◌, ℕ, ◌+◌, ◌^◌, ◌<◌, ◌≤◌, length, IfOk, IfSome, MatchOption, IsTrue};
ghost use Rattle.std.specs.List.{All};
ghost use Rattle.path_graph.specs.Conditions.{IsBounded, IsWithin};
ghost use Rattle.path_graph.specs.Graph.{has, arc_at, loop_at};
ghost use Rattle.path_problem.specs.Layout.{IsLayout};
ghost use Rattle.path_problem.specs.Part.{IsPlace, AreNames, IsInnerAt, AreInner, NeedGives};
ghost use Rattle.path_graph.specs.Sources.{HasArcsOf};
ghost use Rattle.path_problem.specs.Window.{weight_limit};

use crate::layout::{Layout, arcs_of, in_order};
use crate::least::least_price;
use crate::net::Link;
use path_graph::number_at;
use std::alloc::Global;
use wx_text::NoMemory;

/// What the links of a loop are made of.
#[derive(Clone, Copy)]
struct Part<'a> {
    layout: &'a Layout<'a>,
    /// The number of the loop.
    number: usize,
    /// The weights of all arcs of the graph.
    weights: &'a [i128],
    /// The members of the loop, each once.
    names: &'a [usize],
    /// For each member its place among the names.
    places: &'a [usize],
}

/// The members of a loop, each once. Puts in for each its place among them; what was there before does not matter.
fn place_members(
    alloc: Global,
    members: &[u32],
    places: &mut [usize],
) -> Result<Vec<usize>, NoMemory>
    requires { All (λ v. v < length places.old) members.now }
    ensures { IfOk result (λ names. AreNames members.now names.items places.new) }
{
    let mut names = Vec::new(alloc);
    for member in members {
        let vertex = *member as usize;
        if place_of(names.as_slice(), places, vertex).is_none() {
            places[vertex] = names.len();
            names.push(vertex)?;
        }
    }
    Ok(names)
}

/// The place of a vertex among some names, if it is there.
fn place_of(names: &[usize], places: &[usize], vertex: usize) -> Option<usize>
    requires { vertex < length places.now }
    ensures { MatchOption result ((n : ℕ) → IsPlace names.now places.now vertex n → ⊥)
        (IsPlace names.now places.now vertex) }
{
    let place = places[vertex];
    if place < names.len() && names[place] == vertex {
        Some(place)
    } else {
        None
    }
}

/// Whether the arc with a number is a back arc of the loop.
fn is_back(part: &Part<'_>, number: usize) -> bool
    requires layout { IsLayout part.now.layout.now }
    requires loops { part.now.number < length part.now.layout.now.graph.now.loops }
    requires few { length part.now.layout.now.graph.now.loops ≤ 2 ^ 16 }
    ensures { result ≡ has (loop_at part.now.layout.now.graph.now part.now.number).back number }
{
    number_at(part.layout.owners.as_slice(), number) == part.number + 1
}

/// The arc with a number as a link, if it is inside the loop.
fn inner_link(part: &Part<'_>, number: usize) -> Option<Link>
    requires layout { IsLayout part.now.layout.now }
    requires number { number < length part.now.layout.now.graph.now.arcs }
    requires loops { part.now.number < length part.now.layout.now.graph.now.loops }
    requires few { length part.now.layout.now.graph.now.loops ≤ 2 ^ 16 }
    requires weights { length part.now.weights.now ≡ length part.now.layout.now.graph.now.arcs }
    requires places { length part.now.places.now ≡ length part.now.layout.now.graph.now.finish }
    requires names { let p = part.now in
        AreNames (loop_at p.layout.now.graph.now p.number).members p.names.now p.places.now }
    ensures { let p = part.now in let g = p.layout.now.graph.now in let l = loop_at g p.number in MatchOption result
        (IsTrue (has l.members (arc_at g number).from) → IsTrue (has l.members (arc_at g number).to) → ⊥)
        (IsInnerAt g l p.weights.now p.names.now p.places.now number) }
{
    let arc = &part.layout.graph.arcs.as_slice()[number];
    let from = place_of(part.names, part.places, arc.from as usize)?;
    let to = place_of(part.names, part.places, arc.to as usize)?;
    Some(Link {
        from,
        to,
        weight: part.weights[number],
        back: is_back(part, number),
        arc: number,
    })
}

/// Some arcs as links, if they are inside the loop.
fn inner_links(alloc: Global, part: &Part<'_>, arcs: &[usize]) -> Result<Vec<Link>, NoMemory>
    requires layout { IsLayout part.now.layout.now }
    requires loops { part.now.number < length part.now.layout.now.graph.now.loops }
    requires few { length part.now.layout.now.graph.now.loops ≤ 2 ^ 16 }
    requires weights { length part.now.weights.now ≡ length part.now.layout.now.graph.now.arcs }
    requires places { length part.now.places.now ≡ length part.now.layout.now.graph.now.finish }
    requires names { let p = part.now in
        AreNames (loop_at p.layout.now.graph.now p.number).members p.names.now p.places.now }
    requires arcs { All (λ a. a < length part.now.layout.now.graph.now.arcs) arcs.now }
    requires each { let g = part.now.layout.now.graph.now in
        HasArcsOf g (loop_at g part.now.number).members arcs.now }
    ensures { let p = part.now in let g = p.layout.now.graph.now in IfOk result (λ links.
        AreInner g (loop_at g p.number) p.weights.now p.names.now p.places.now links.items) }
{
    let mut links = Vec::new(alloc);
    for number in arcs {
        if let Some(link) = inner_link(part, *number) {
            links.push(link)?;
        }
    }
    Ok(links)
}

/// The least number up to `LARGEST` that serves the loop with a number, if there is one, when arcs have the weights at
/// the needs of the loops before it. What is in `places` before does not matter.
pub(crate) fn need_of_loop(
    alloc: Global,
    layout: &Layout<'_>,
    number: usize,
    weights: &[i128],
    places: &mut [usize],
) -> Result<Option<u64>, NoMemory>
    requires layout { IsLayout layout.now }
    requires bounded { IsBounded layout.now.graph.now }
    requires number { number < length layout.now.graph.now.loops }
    requires weights { length weights.now ≡ length layout.now.graph.now.arcs }
    requires small { All (IsWithin (weight_limit number)) weights.now }
    requires places { length places.old ≡ length layout.now.graph.now.finish }
    ensures { IfOk result (NeedGives layout.now.graph.now number weights.now) }
{
    let arcs = &layout.graph.loops.as_slice()[number];
    let members = in_order(alloc, layout, arcs.members.as_slice())?;
    let leaving = arcs_of(alloc, layout, members.as_slice())?;
    let names = place_members(alloc, members.as_slice(), places)?;
    let part = Part {
        layout,
        number,
        weights,
        names: names.as_slice(),
        places,
    };
    let links = inner_links(alloc, &part, leaving.as_slice())?;
    let start = vec![in alloc; 0i128; names.len()]?;
    least_price(alloc, links.as_slice(), start.as_slice())
}
