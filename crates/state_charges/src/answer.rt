//! The charges of groups.

ghost use Rattle.std.specs.Prelude.{◌≤◌, length, replicate, IfOk};
ghost use Rattle.wx_base.specs.Machine.{IsMachine};
ghost use Rattle.xdd_table.specs.Diagram.{Keeps};
ghost use Rattle.flow_ctx.specs.Laws.{IsUnfoldedOn};
ghost use Rattle.flow_ctx.specs.Unfolding.{most_nodes};
ghost use Rattle.cache_class.specs.Classes.{AreClasses};
ghost use Rattle.state_charges.specs.Charges.{AreCharges};
ghost use Rattle.state_charges.specs.Misses.{ArePlaces};
ghost use Rattle.state_charges.specs.Raising.{IsEarly, IsEdgeRise, Raises};
ghost use Rattle.state_charges.specs.Subject.{AreVectors, IsSubject};

use crate::amounts::{with_amounts, zeros};
use crate::edges::raise_edges;
use crate::places::GroupPlaces;
use crate::subject::Subject;
use cache_class::{Classes, groups_of};
use cert_text::Charge;
use flow_ctx::Unfolded;
use node_exits::Work;
use pipe_time::Vector;
use wx_base::Machine;
use wx_text::{List, NoMemory};
use xdd_table::Table;

/// The greatest rise of a cost by a miss of each group, in the order of the groups.
fn greatest_rises(
    table: &mut Table,
    subject: &Subject,
    places: &GroupPlaces,
) -> Result<Vec<u64>, NoMemory>
    requires subject { let s = subject.now in IsSubject s.unfolded.now s.machine.now s.classes.now s.vectors.now }
    requires places { ArePlaces places.now.groups places.now.places.entries }
    ensures raises { let s = subject.now in IfOk result (λ amounts. Raises (IsEarly
        (IsEdgeRise s.unfolded.now s.machine.now s.classes.now s.vectors.now places.now.groups)
        (length s.unfolded.now.edges)) (replicate (length places.now.groups) 0) amounts.items) }
    ensures kept { Keeps table.old table.new }
{
    let alloc = table.allocator();
    let mut amounts = zeros(alloc, places.groups.len())?;
    let mut work = Work::new(alloc);
    raise_edges(table, &mut work, subject, places, amounts.as_mut_slice())?;
    Ok(amounts)
}

/// What a first miss of each group costs at most, in cycles, by line and then by scope: the greatest rise of an edge's
/// cost, from a vector of the node that it leaves, where an event of the group misses and not hits. `vectors` has the
/// vectors of each node.
///
/// The only error is want of memory. Diagrams of the table keep their meaning. No combination is looked at by itself:
/// the time goes by the edges, the vectors of their nodes, the first misses of the nodes' blocks, and how many parts
/// the costs have as diagrams.
pub fn charges(
    u: &Unfolded,
    m: &Machine,
    k: &Classes,
    vectors: &List<List<Vector>>,
    table: &mut Table,
) -> Result<List<Charge>, NoMemory>
    requires machine { IsMachine m.now }
    requires unfolded { IsUnfoldedOn m.now u.now }
    requires few { length u.now.nodes ≤ most_nodes }
    requires classes { AreClasses u.now m.now k.now }
    requires vectors { AreVectors u.now vectors.now }
    ensures charges { IfOk result (AreCharges u.now m.now k.now vectors.now) }
    ensures kept { Keeps table.old table.new }
{
    let alloc = table.allocator();
    let subject = Subject {
        unfolded: u,
        machine: m,
        classes: k,
        vectors,
    };
    let groups = groups_of(alloc, u, k)?;
    let places = GroupPlaces::new(alloc, groups)?;
    let amounts = greatest_rises(table, &subject, &places)?;
    let order = places.groups.as_slice();
    let rises = amounts.as_slice();
    let charges = with_amounts(alloc, order, rises)?;
    let list = List::new(charges);
    Ok(list)
}
