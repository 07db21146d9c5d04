//! The rules on the vectors of the nodes, 2 and 3, tried node by node. What was worked out for a node serves both.

ghost use Rattle.std.specs.Prelude.{◌+◌, ◌<◌, List, length, IfErr, IfOk, OnOk};
ghost use Rattle.wx_base.specs.declared.machine.Machine.{Machine as MachineOf};
ghost use Rattle.flow_ctx.specs.declared.unfolded.Unfolded.{Unfolded as UnfoldedOf};
ghost use Rattle.xdd_table.specs.declared.node.Node.{Node as NodeOf};
ghost use Rattle.xdd_table.specs.Diagram.{Keeps};
ghost use Rattle.node_exits.specs.NodeExits.{IsRight};
ghost use Rattle.cert_rules.specs.Rules.{HasStart, PaysEdges, PaysFinish};
ghost use Rattle.cert_rules.specs.Judged.{HoldsForAll};
ghost use Rattle.cert_check.specs.Judging.{ArePrices, Breaks, HasCharges, IsRange, IsSubject, NamesFirst};
ghost use Rattle.cert_check.specs.Places.{AreCosts, AreFinishes};
ghost use Rattle.cert_check.specs.Progress.{HasCosts, HasCostsOr, HasFinishes};

use crate::checked::{Finishes, NodeCosts};
use crate::edges::node_costs;
use crate::finishes::node_finishes;
use crate::ranges::end_of_edges;
use crate::refused::Refused;
use crate::subject::{Stretch, Subject, family_of};
use node_exits::{Work, exits_stay};
use std::alloc::Global;
use wx_text::NoMemory;
use xdd_table::Table;

/// How many vectors are judged before what was worked out for them is let go.
const MOST_KEPT: usize = 4096;

/// The diagrams for the vectors of a certificate.
#[derive(Drop)]
pub(crate) struct Diagrams {
    pub finishes: Vec<Finishes>,
    pub costs: Vec<NodeCosts>,
}

/// Adds the finishes from the vectors of the next node, if all pay for them.
fn add_finishes(
    table: &mut Table,
    work: &mut Work,
    subject: &Subject,
    node: u32,
    finishes: &mut Vec<Finishes>,
) -> Result<(), Refused>
    requires subject { let s = subject.now in
        IsSubject s.unfolded.now s.machine.now s.classes.now s.certificate.now }
    requires charges { HasCharges subject.now.charges.now subject.now.certificate.now.charges }
    requires node { node < length subject.now.unfolded.now.nodes }
    requires so_far { let s = subject.now in
        HasFinishes table.old s.unfolded.now s.machine.now s.classes.now s.certificate.now node finishes.old.items }
    requires right { let s = subject.now in IsRight table.old s.unfolded.now s.machine.now work.old }
    ensures finishes { let s = subject.now in OnOk result (HasFinishes table.new s.unfolded.now s.machine.now
        s.classes.now s.certificate.now (node + 1) finishes.new.items) }
    ensures refused { let s = subject.now in IfErr result
        (NamesFirst (PaysFinish s.unfolded.now s.machine.now s.classes.now s.certificate.now) 2) }
    ensures right { let s = subject.now in IsRight table.new s.unfolded.now s.machine.now work.new }
    ensures kept { Keeps table.old table.new }
{
    let found = node_finishes(table, work, subject, node)?;
    finishes.push(found)?;
    Ok(())
}

/// Adds the costs along the next node's edges from each of its vectors, if all pay for them; else tells the first that
/// does not.
fn add_costs(
    table: &mut Table,
    work: &mut Work,
    subject: &Subject,
    stretch: &Stretch,
    node: u32,
    costs: &mut Vec<NodeCosts>,
) -> Result<Option<Refused>, NoMemory>
    requires subject { let s = subject.now in
        IsSubject s.unfolded.now s.machine.now s.classes.now s.certificate.now }
    requires charges { HasCharges subject.now.charges.now subject.now.certificate.now.charges }
    requires prices { let s = subject.now in
        ArePrices s.certificate.now s.unfolded.now s.prices.now.entering s.prices.now.returning }
    requires range { IsRange subject.now.unfolded.now.edges node stretch.now.first stretch.now.end }
    requires node { node < length subject.now.unfolded.now.nodes }
    requires so_far { let s = subject.now in
        HasCosts table.old s.unfolded.now s.machine.now s.classes.now s.certificate.now node costs.old.items }
    requires right { let s = subject.now in IsRight table.old s.unfolded.now s.machine.now work.old }
    ensures costs { let s = subject.now in IfOk result (HasCostsOr table.new s.unfolded.now s.machine.now
        s.classes.now s.certificate.now (node + 1) costs.new.items) }
    ensures right { let s = subject.now in IsRight table.new s.unfolded.now s.machine.now work.new }
    ensures kept { Keeps table.old table.new }
{
    match node_costs(table, work, subject, stretch, node) {
        Ok(found) => costs.push(found)?,
        Err(Refused::NoMemory) => return Err(NoMemory),
        Err(refused) => return Ok(Some(refused)),
    }
    Ok(None)
}

/// The costs along the edges of the nodes that were judged, and the first vector that does not pay for an edge, if one
/// was found: no costs are added from then on.
#[derive(Drop)]
struct Paid {
    costs: Vec<NodeCosts>,
    refused: Option<Refused>,
}

/// Adds the costs along the next node's edges, unless a vector that does not pay was found before.
fn go_on(
    table: &mut Table,
    work: &mut Work,
    subject: &Subject,
    stretch: &Stretch,
    node: u32,
    paid: &mut Paid,
) -> Result<(), NoMemory>
    requires subject { let s = subject.now in
        IsSubject s.unfolded.now s.machine.now s.classes.now s.certificate.now }
    requires charges { HasCharges subject.now.charges.now subject.now.certificate.now.charges }
    requires prices { let s = subject.now in
        ArePrices s.certificate.now s.unfolded.now s.prices.now.entering s.prices.now.returning }
    requires range { IsRange subject.now.unfolded.now.edges node stretch.now.first stretch.now.end }
    requires node { node < length subject.now.unfolded.now.nodes }
    requires so_far { let s = subject.now in HasCostsOr table.old s.unfolded.now s.machine.now s.classes.now
        s.certificate.now node paid.old.costs.items paid.old.refused }
    requires right { let s = subject.now in IsRight table.old s.unfolded.now s.machine.now work.old }
    ensures costs { let s = subject.now in OnOk result (HasCostsOr table.new s.unfolded.now s.machine.now
        s.classes.now s.certificate.now (node + 1) paid.new.costs.items paid.new.refused) }
    ensures right { let s = subject.now in IsRight table.new s.unfolded.now s.machine.now work.new }
    ensures kept { Keeps table.old table.new }
{
    if paid.refused.is_some() {
        return Ok(());
    }
    paid.refused = add_costs(table, work, subject, stretch, node, &mut paid.costs)?;
    Ok(())
}

/// Lets go what was worked out if it is for too many vectors, so that memory goes by the vectors of a stretch of nodes and
/// not of all. The answer is for how many vectors it is then.
fn renew(alloc: Global, work: &mut Work, vectors: usize, more: usize) -> usize
    ensures { (nodes : List NodeOf) (u : UnfoldedOf) (m : MachineOf) → IsRight nodes u m work.old
        → IsRight nodes u m work.new }
{
    let all = vectors.saturating_add(more);
    if all <= MOST_KEPT {
        return all;
    }
    *work = Work::new(alloc);
    0
}

/// Tries the rules on each vector, 2 and 3, and puts the diagrams into the table.
pub(crate) fn judge_vectors(table: &mut Table, subject: &Subject) -> Result<Diagrams, Refused>
    requires subject { let s = subject.now in
        IsSubject s.unfolded.now s.machine.now s.classes.now s.certificate.now }
    requires charges { HasCharges subject.now.charges.now subject.now.certificate.now.charges }
    requires prices { let s = subject.now in
        ArePrices s.certificate.now s.unfolded.now s.prices.now.entering s.prices.now.returning }
    requires start { HasStart subject.now.unfolded.now subject.now.certificate.now }
    ensures finishes { let s = subject.now in IfOk result (λ diagrams.
        AreFinishes table.new s.unfolded.now s.machine.now s.certificate.now.families diagrams.finishes.items) }
    ensures costs { let s = subject.now in IfOk result (λ diagrams.
        AreCosts table.new s.unfolded.now s.machine.now s.certificate.now.families diagrams.costs.items) }
    ensures ends { let s = subject.now in OnOk result
        (HoldsForAll (PaysFinish s.unfolded.now s.machine.now s.classes.now s.certificate.now)) }
    ensures edges { let s = subject.now in OnOk result
        (HoldsForAll (PaysEdges s.unfolded.now s.machine.now s.classes.now s.certificate.now)) }
    ensures refused { let s = subject.now in IfErr result
        (Breaks s.unfolded.now s.machine.now s.classes.now s.certificate.now) }
    ensures kept { Keeps table.old table.new }
{
    exits_stay();
    let alloc = table.allocator();
    let mut work = Work::new(alloc);
    let mut finishes = Vec::new(alloc);
    let mut paid = Paid {
        costs: Vec::new(alloc),
        refused: None,
    };
    let mut first = 0;
    let mut vectors = 0;
    for node in 0..subject.unfolded.nodes.len() {
        add_finishes(table, &mut work, subject, node as u32, &mut finishes)?;
        let end = end_of_edges(subject.unfolded, node as u32, first);
        let stretch = Stretch { first, end };
        go_on(table, &mut work, subject, &stretch, node as u32, &mut paid)?;
        first = end;
        let more = family_of(subject.certificate, node as u32).len();
        vectors = renew(alloc, &mut work, vectors, more);
    }
    match paid.refused {
        Some(refused) => Err(refused),
        None => Ok(Diagrams {
            finishes,
            costs: paid.costs,
        }),
    }
}
