//! The loops of an unfolding.

ghost use Rattle.std.specs.Prelude.{◌≡◌, ◌≤◌, ◌<◌, [], ◌∷◌, ◌++◌, length, IfOk, MatchOption, OnOk};
ghost use Rattle.flow_ctx.specs.Chosen.{most_edges};
ghost use Rattle.flow_ctx.specs.Found.{nodes_of};
ghost use Rattle.flow_ctx.specs.Targets.{IsInOrder};
ghost use Rattle.flow_ctx.specs.Unfolding.{AreLoops, AreNodes, IsHeadNumber, IsLoop, most_nodes};

use crate::members::{edges_into, info_at, members_of};
use crate::place::Place;
use crate::unfolded::{Edge, Numbers, ULoop};
use flow_graph::Program;
use std::alloc::Global;
use wx_base::NoMemory;

/// The loop whose head is the node with a number, if it is one.
fn loop_at(
    alloc: Global,
    program: &Program,
    places: &[Place],
    edges: &[Edge],
    number: usize,
) -> Result<Option<ULoop>, NoMemory>
    requires order { IsInOrder program.now }
    requires nodes { AreNodes program.now (nodes_of places.now) }
    requires few { length places.now ≤ most_nodes }
    requires few_edges { length edges.now ≤ most_edges }
    requires node { number < length places.now }
    ensures { IfOk result (λ found. MatchOption found (IsHeadNumber program.now (nodes_of places.now) number → ⊥)
        (λ l. (l.head ≡ number) × IsLoop program.now (nodes_of places.now) edges.now l)) }
{
    let place = &places[number];
    let Some(info) = info_at(program, place) else {
        return Ok(None);
    };
    let head = number as u32;
    let members = members_of(alloc, program, places, place, info)?;
    let back = edges_into(alloc, edges, head, members.as_slice(), true)?;
    let entries = edges_into(alloc, edges, head, members.as_slice(), false)?;
    Ok(Some(ULoop {
        head,
        members: Numbers::new(members),
        back: Numbers::new(back),
        entries: Numbers::new(entries),
        maxcount: info.maxcount,
        totalcount: info.totalcount,
    }))
}

/// Puts a loop behind the others, if one was found.
fn push_found(loops: &mut Vec<ULoop>, found: Option<ULoop>) -> Result<(), NoMemory>
    ensures { OnOk result (MatchOption found (loops.new.items ≡ loops.old.items)
        (λ l. loops.new.items ≡ loops.old.items ++ l ∷ [])) }
{
    if let Some(found) = found {
        loops.push(found)?;
    }
    Ok(())
}

/// All loops. Each takes as much time as there are nodes and edges.
pub(crate) fn loops_of(
    alloc: Global,
    program: &Program,
    places: &[Place],
    edges: &[Edge],
) -> Result<Vec<ULoop>, NoMemory>
    requires order { IsInOrder program.now }
    requires nodes { AreNodes program.now (nodes_of places.now) }
    requires few { length places.now ≤ most_nodes }
    requires few_edges { length edges.now ≤ most_edges }
    ensures { IfOk result (λ loops. AreLoops program.now (nodes_of places.now) edges.now loops.items) }
{
    let mut loops = Vec::new(alloc);
    for number in 0..places.len() {
        let found = loop_at(alloc, program, places, edges, number)?;
        push_found(&mut loops, found)?;
    }
    Ok(loops)
}
