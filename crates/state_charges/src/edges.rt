//! The rises of the costs of edges.

ghost use Rattle.std.specs.Prelude.{◌≡◌, ◌<◌, List, length, slice_get, Some, IfOk, OnOk};
ghost use Rattle.flow_block.specs.declared.block.Block.{Block as BlockOf};
ghost use Rattle.flow_ctx.specs.Nodes.{IsBlockOf};
ghost use Rattle.cache_class.specs.declared.class.Class.{Class as ClassOf};
ghost use Rattle.xdd_table.specs.Diagram.{Keeps};
ghost use Rattle.node_exits.specs.NodeExits.{IsRight};
ghost use Rattle.state_charges.specs.Misses.{AreMisses, ArePlaces};
ghost use Rattle.state_charges.specs.Raising.{IsEarly, IsEdgeRise, Raises};
ghost use Rattle.state_charges.specs.Subject.{IsSubject};

use crate::miss::Miss;
use crate::places::{GroupPlaces, misses_of};
use crate::subject::{Departure, Subject, classes_at, edge_at, vectors_at};
use crate::vectors::raise_vectors;
use flow_ctx::nodes_have_blocks;
use node_exits::Work;
use pipe_block::{Site, blocks_are_timed};
use std::alloc::Global;
use wx_text::NoMemory;
use xdd_table::Table;

/// The events of a node's block that belong to groups.
fn misses_at(
    alloc: Global,
    subject: &Subject,
    places: &GroupPlaces,
    node: u32,
) -> Result<Vec<Miss>, NoMemory>
    requires subject { let s = subject.now in IsSubject s.unfolded.now s.machine.now s.classes.now s.vectors.now }
    requires places { ArePlaces places.now.groups places.now.places.entries }
    requires node { node < length subject.now.unfolded.now.nodes }
    ensures { let s = subject.now in (block : BlockOf) (kinds : List ClassOf) → IsBlockOf s.unfolded.now node block
        → slice_get s.classes.now.slots node ≡ Some kinds
        → IfOk result (λ misses. AreMisses places.now.groups block.slots kinds misses.items) }
{
    nodes_have_blocks();
    blocks_are_timed();
    let events = subject.unfolded.block(node).slots.as_slice();
    misses_of(alloc, places, events, classes_at(subject.classes, node))
}

/// Raises the amounts of groups to the greatest rises along the edge with a number.
fn raise_edge(
    table: &mut Table,
    work: &mut Work,
    subject: &Subject,
    places: &GroupPlaces,
    number: usize,
    amounts: &mut [u64],
) -> Result<(), NoMemory>
    requires subject { let s = subject.now in IsSubject s.unfolded.now s.machine.now s.classes.now s.vectors.now }
    requires places { ArePlaces places.now.groups places.now.places.entries }
    requires number { number < length subject.now.unfolded.now.edges }
    requires long { length amounts.old ≡ length places.now.groups }
    requires right { let s = subject.now in IsRight table.old s.unfolded.now s.machine.now work.old }
    ensures raises { let s = subject.now in OnOk result (Raises
        (IsEdgeRise s.unfolded.now s.machine.now s.classes.now s.vectors.now places.now.groups number)
        amounts.old amounts.new) }
    ensures right { let s = subject.now in OnOk result (IsRight table.new s.unfolded.now s.machine.now work.new) }
    ensures kept { Keeps table.old table.new }
{
    nodes_have_blocks();
    blocks_are_timed();
    let edge = edge_at(subject.unfolded, number);
    let block = subject.unfolded.block(edge.from);
    let classes = classes_at(subject.classes, edge.from);
    let family = vectors_at(subject.vectors, edge.from);
    let misses = misses_at(table.allocator(), subject, places, edge.from)?;
    let listed = misses.as_slice();
    let departure = Departure {
        site: Site {
            unfolded: subject.unfolded,
            node: edge.from,
            machine: subject.machine,
        },
        block,
        taken: edge.taken,
        classes,
        misses: listed,
    };
    raise_vectors(table, work, &departure, family, amounts)?;
    Ok(())
}

/// Raises the amounts of groups to the greatest rises along all edges.
pub(crate) fn raise_edges(
    table: &mut Table,
    work: &mut Work,
    subject: &Subject,
    places: &GroupPlaces,
    amounts: &mut [u64],
) -> Result<(), NoMemory>
    requires subject { let s = subject.now in IsSubject s.unfolded.now s.machine.now s.classes.now s.vectors.now }
    requires places { ArePlaces places.now.groups places.now.places.entries }
    requires long { length amounts.old ≡ length places.now.groups }
    requires right { let s = subject.now in IsRight table.old s.unfolded.now s.machine.now work.old }
    ensures raises { let s = subject.now in OnOk result (Raises (IsEarly
        (IsEdgeRise s.unfolded.now s.machine.now s.classes.now s.vectors.now places.now.groups)
        (length s.unfolded.now.edges)) amounts.old amounts.new) }
    ensures kept { Keeps table.old table.new }
{
    for number in 0..subject.unfolded.edges.len() {
        raise_edge(table, work, subject, places, number, amounts)?;
    }
    Ok(())
}
