//! The unfolding of a program.

ghost use Rattle.std.specs.Prelude.{◌≡◌, ◌≤◌, ◌⊎◌, length, IfOk, IfErr, OnOk};
ghost use Rattle.flow_ctx.specs.declared.error.UnfoldError.TheVariants as refusal;
ghost use Rattle.flow_ctx.specs.Found.{nodes_of};
ghost use Rattle.flow_ctx.specs.Laws.{IsBuilt};
ghost use Rattle.flow_ctx.specs.Targets.{IsInOrder};
ghost use Rattle.flow_ctx.specs.Unfolding.{AreNodes, HasTooManyNodes, IsStartNumber, IsUnfolding};
ghost use Rattle.flow_ctx.specs.Unfolding.{most_nodes};

use crate::edges::edges_of;
use crate::error::UnfoldError;
use crate::loops::loops_of;
use crate::ordering::{number_of, ordered_places};
use crate::place::Place;
use crate::search::place_at;
use crate::unfolded::{Chain, Edges, ULoops, UNode, UNodes, Unfolded};
use flow_graph::Program;
use indexmap::IndexSet;
use std::alloc::Global;
use wx_base::NoMemory;

/// The number of the node where runs start.
fn start_number(alloc: Global, program: &Program, places: &IndexSet<Place>) -> u32
    requires order { IsInOrder program.now }
    requires nodes { AreNodes program.now (nodes_of places.now.keys) }
    requires few { length places.now.keys ≤ most_nodes }
    ensures { IsStartNumber program.now (nodes_of places.now.keys) result }
{
    match place_at(program, Vec::new(alloc), program.start) {
        Some(place) => number_of(places, &place),
        None => unreachable!(),
    }
}

/// The nodes that places are.
fn list_nodes(alloc: Global, places: &[Place]) -> Result<Vec<UNode>, NoMemory>
    ensures { IfOk result (λ nodes. nodes.items ≡ nodes_of places.now) }
{
    let mut nodes = Vec::with_capacity(alloc, places.len())?;
    for place in places {
        nodes.push(UNode {
            chain: Chain::new(Vec::from_slice(alloc, place.chain.as_slice())?),
            function: place.function,
            block: place.block,
        })?;
    }
    Ok(nodes)
}

/// The unfolding of a program that `flow_graph::build` gave.
///
/// `TooManyNodes` comes exactly where more than 4,096 nodes are reached. The program is given up on refusal. With n
/// nodes and edges it takes n log n time for these, and for each loop as much as there are nodes and edges. A chain
/// counts as long as it is.
pub fn unfold(alloc: Global, program: Program) -> Result<Unfolded, UnfoldError>
    requires { IsBuilt program }
    ensures unfolding { IfOk result (IsUnfolding program) }
    ensures few { OnOk result (HasTooManyNodes program → ⊥) }
    ensures most { IfOk result (λ u. length u.nodes ≤ most_nodes) }
    ensures refused { IfErr result (λ e. (e ≡ refusal.NoMemory)
        ⊎ ((e ≡ refusal.TooManyNodes) × HasTooManyNodes program)) }
{
    let places = ordered_places(alloc, &program)?;
    let edges = edges_of(alloc, &program, &places)?;
    let loops = loops_of(alloc, &program, places.as_slice(), edges.as_slice())?;
    let nodes = list_nodes(alloc, places.as_slice())?;
    let start = start_number(alloc, &program, &places);
    Ok(Unfolded {
        program,
        start,
        nodes: UNodes::new(nodes),
        edges: Edges::new(edges),
        loops: ULoops::new(loops),
    })
}
