//! The rule on runs that go on: each vector of a node pays for each of the node's edges.

ghost use Rattle.std.specs.Prelude.{◌≡◌, ◌<◌, ◌^◌, ℕ, List, length, slice_get, All, Decides, Some, IfErr, IfOk};
ghost use Rattle.std.specs.Prelude.{MatchOption, OnOk};
ghost use Rattle.flow_ctx.specs.declared.unfolded.Edge.{Edge as EdgeOf};
ghost use Rattle.xdd_table.specs.Diagram.{Keeps};
ghost use Rattle.node_exits.specs.NodeExits.{IsNodeLeaving, IsRight};
ghost use Rattle.cert_text.specs.declared.certificate.CertVector.{CertVector as VectorOf};
ghost use Rattle.cert_rules.specs.Prices.{entering, returning};
ghost use Rattle.cert_rules.specs.Rules.{IsSmallVector, PaysEdges};
ghost use Rattle.cert_check.specs.Places.{AreNodeCosts, AreVectorCosts, IsCost};
ghost use Rattle.cert_check.specs.Judging.{ArePrices, FamilyPays, HasCharges, IsRange, IsSite};
ghost use Rattle.cert_check.specs.Judging.{IsSubject, NamesPlace, VectorPaysEdge, VectorPaysEdges};

use crate::charging::charged_at;
use crate::checked::{NodeCosts, VectorCosts};
use crate::refused::Refused;
use crate::subject::{Site, Stretch, Subject, classes_at, family_of, offer_at};
use crate::work::leave_along;
use cert_judge::{Crossing, pays_edge};
use cert_text::CertVector;
use flow_ctx::{Edge, Unfolded};
use node_exits::{Work, exits_stay};
use pipe_block::Leaving;
use wx_text::{List, NoMemory};
use xdd_table::{Dd, Table};

/// The number of the rule.
const RULE: u64 = 3;

/// The edge with a number.
fn edge_at(u: &Unfolded, number: usize) -> &Edge
    requires { number < length u.now.edges }
    ensures { slice_get u.now.edges number ≡ Some result.now }
{
    &u.edges.as_slice()[number]
}

/// What the edge with a number leads to, and what it costs to go along it.
fn crossing_at<'a>(subject: &Subject<'a>, edge: &Edge, number: usize) -> Crossing<'a>
    requires subject { let s = subject.now in
        IsSubject s.unfolded.now s.machine.now s.classes.now s.certificate.now }
    requires prices { let s = subject.now in
        ArePrices s.certificate.now s.unfolded.now s.prices.now.entering s.prices.now.returning }
    requires number { number < length subject.now.unfolded.now.edges }
    requires edge { slice_get subject.now.unfolded.now.edges number ≡ Some edge.now }
    ensures family { slice_get subject.now.certificate.now.families edge.now.to ≡ Some result.family.now }
    ensures entering { let s = subject.now in result.entering ≡ entering s.certificate.now s.unfolded.now number }
    ensures returning { let s = subject.now in result.returning ≡ returning s.certificate.now s.unfolded.now number }
    ensures entering_small { result.entering < 2 ^ 127 }
    ensures returning_small { result.returning < 2 ^ 127 }
{
    Crossing {
        family: family_of(subject.certificate, edge.to),
        entering: subject.prices.entering.as_slice()[number],
        returning: subject.prices.returning.as_slice()[number],
    }
}

/// Whether a vector pays for an edge, where this is what the block hands on along it.
fn edge_pays(
    table: &mut Table,
    leaving: &Leaving,
    subject: &Subject,
    site: &Site,
    number: usize,
    v: &CertVector,
) -> Result<bool, NoMemory>
    requires subject { let s = subject.now in
        IsSubject s.unfolded.now s.machine.now s.classes.now s.certificate.now }
    requires site { let s = subject.now in
        IsSite table.old s.unfolded.now s.classes.now s.certificate.now site.now.node site.now.classes.now
        site.now.charged }
    requires prices { let s = subject.now in
        ArePrices s.certificate.now s.unfolded.now s.prices.now.entering s.prices.now.returning }
    requires number { number < length subject.now.unfolded.now.edges }
    requires from { (edge : EdgeOf) → slice_get subject.now.unfolded.now.edges number ≡ Some edge
        → edge.from ≡ site.now.node }
    requires small { IsSmallVector v.now }
    requires leaving { let s = subject.now in (edge : EdgeOf) → slice_get s.unfolded.now.edges number ≡ Some edge
        → IsNodeLeaving table.old s.unfolded.now s.machine.now site.now.node v.now.slots edge.taken leaving.now }
    ensures pays { let s = subject.now in IfOk result (λ pays. Decides pays
        (VectorPaysEdge s.unfolded.now s.machine.now s.classes.now s.certificate.now v.now number)) }
    ensures kept { Keeps table.old table.new }
{
    let edge = edge_at(subject.unfolded, number);
    let crossing = crossing_at(subject, edge, number);
    pays_edge(table, leaving, &offer_at(site, v.potential), &crossing)
}

/// The cost along an edge from a vector, if the vector pays for it.
fn paid_cost(
    table: &mut Table,
    work: &mut Work,
    subject: &Subject,
    site: &Site,
    number: usize,
    v: &CertVector,
) -> Result<Option<Dd>, NoMemory>
    requires subject { let s = subject.now in
        IsSubject s.unfolded.now s.machine.now s.classes.now s.certificate.now }
    requires site { let s = subject.now in
        IsSite table.old s.unfolded.now s.classes.now s.certificate.now site.now.node site.now.classes.now
        site.now.charged }
    requires prices { let s = subject.now in
        ArePrices s.certificate.now s.unfolded.now s.prices.now.entering s.prices.now.returning }
    requires number { number < length subject.now.unfolded.now.edges }
    requires from { (edge : EdgeOf) → slice_get subject.now.unfolded.now.edges number ≡ Some edge
        → edge.from ≡ site.now.node }
    requires small { IsSmallVector v.now }
    requires node { site.now.node < length subject.now.unfolded.now.nodes }
    requires right { let s = subject.now in IsRight table.old s.unfolded.now s.machine.now work.old }
    ensures cost { let s = subject.now in
        let pays = VectorPaysEdge s.unfolded.now s.machine.now s.classes.now s.certificate.now v.now number in
        (edge : EdgeOf) → slice_get s.unfolded.now.edges number ≡ Some edge → IfOk result (λ found.
        MatchOption found (pays → ⊥) (λ d. pays × IsCost table.new s.unfolded.now s.machine.now v.now edge d)) }
    ensures right { let s = subject.now in IsRight table.new s.unfolded.now s.machine.now work.new }
    ensures kept { Keeps table.old table.new }
{
    exits_stay();
    let edge = edge_at(subject.unfolded, number);
    let answer = leave_along(table, work, subject, edge, v)?;
    let leaving = work.leaving(answer);
    let pays = edge_pays(table, leaving, subject, site, number, v)?;
    if pays {
        Ok(Some(leaving.cost))
    } else {
        Ok(None)
    }
}

/// The costs along a node's edges from a vector, if the vector pays for them all.
fn costs_along(
    table: &mut Table,
    work: &mut Work,
    subject: &Subject,
    site: &Site,
    stretch: &Stretch,
    v: &CertVector,
) -> Result<Option<VectorCosts>, NoMemory>
    requires subject { let s = subject.now in
        IsSubject s.unfolded.now s.machine.now s.classes.now s.certificate.now }
    requires site { let s = subject.now in
        IsSite table.old s.unfolded.now s.classes.now s.certificate.now site.now.node site.now.classes.now
        site.now.charged }
    requires prices { let s = subject.now in
        ArePrices s.certificate.now s.unfolded.now s.prices.now.entering s.prices.now.returning }
    requires range { IsRange subject.now.unfolded.now.edges site.now.node stretch.now.first stretch.now.end }
    requires small { IsSmallVector v.now }
    requires node { site.now.node < length subject.now.unfolded.now.nodes }
    requires right { let s = subject.now in IsRight table.old s.unfolded.now s.machine.now work.old }
    ensures costs { let s = subject.now in let node = site.now.node in
        let pays = VectorPaysEdges s.unfolded.now s.machine.now s.classes.now s.certificate.now node v.now in
        IfOk result (λ found. MatchOption found (pays → ⊥)
        (λ costs. pays × AreVectorCosts table.new s.unfolded.now s.machine.now node v.now costs)) }
    ensures right { let s = subject.now in IsRight table.new s.unfolded.now s.machine.now work.new }
    ensures kept { Keeps table.old table.new }
{
    let mut costs = Vec::new(table.allocator());
    for number in stretch.first..stretch.end {
        match paid_cost(table, work, subject, site, number, v)? {
            Some(cost) => costs.push(cost)?,
            None => return Ok(None),
        }
    }
    Ok(Some(List::new(costs)))
}

/// The costs along a node's edges from each of the node's vectors, if all pay for them.
fn family_costs(
    table: &mut Table,
    work: &mut Work,
    subject: &Subject,
    site: &Site,
    stretch: &Stretch,
    family: &[CertVector],
) -> Result<Vec<VectorCosts>, Refused>
    requires subject { let s = subject.now in
        IsSubject s.unfolded.now s.machine.now s.classes.now s.certificate.now }
    requires site { let s = subject.now in
        IsSite table.old s.unfolded.now s.classes.now s.certificate.now site.now.node site.now.classes.now
        site.now.charged }
    requires node { site.now.node < length subject.now.unfolded.now.nodes }
    requires prices { let s = subject.now in
        ArePrices s.certificate.now s.unfolded.now s.prices.now.entering s.prices.now.returning }
    requires range { IsRange subject.now.unfolded.now.edges site.now.node stretch.now.first stretch.now.end }
    requires small { All IsSmallVector family.now }
    requires right { let s = subject.now in
        IsRight table.old s.unfolded.now s.machine.now work.old }
    ensures costs { let s = subject.now in IfOk result (λ costs.
        AreNodeCosts table.new s.unfolded.now s.machine.now site.now.node family.now costs.items) }
    ensures pays { let s = subject.now in
        let pays = VectorPaysEdges s.unfolded.now s.machine.now s.classes.now s.certificate.now site.now.node in
        OnOk result ((place : ℕ) → FamilyPays pays family.now place) }
    ensures refused { let s = subject.now in
        let pays = VectorPaysEdges s.unfolded.now s.machine.now s.classes.now s.certificate.now site.now.node in
        IfErr result (NamesPlace (FamilyPays pays family.now) 3 site.now.node) }
    ensures right { let s = subject.now in
        IsRight table.new s.unfolded.now s.machine.now work.new }
    ensures kept { Keeps table.old table.new }
{
    let mut costs = Vec::new(table.allocator());
    for place in 0..family.len() {
        match costs_along(table, work, subject, site, stretch, &family[place])? {
            Some(found) => costs.push(found)?,
            None => {
                return Err(Refused::Rejected {
                    rule: RULE,
                    node: u64::from(site.node),
                    vector: place as u64,
                });
            }
        }
    }
    Ok(costs)
}

/// The costs along a node's edges from each of the node's vectors, if all pay for them.
pub(crate) fn node_costs(
    table: &mut Table,
    work: &mut Work,
    subject: &Subject,
    stretch: &Stretch,
    node: u32,
) -> Result<NodeCosts, Refused>
    requires subject { let s = subject.now in
        IsSubject s.unfolded.now s.machine.now s.classes.now s.certificate.now }
    requires charges { HasCharges subject.now.charges.now subject.now.certificate.now.charges }
    requires prices { let s = subject.now in
        ArePrices s.certificate.now s.unfolded.now s.prices.now.entering s.prices.now.returning }
    requires range { IsRange subject.now.unfolded.now.edges node stretch.now.first stretch.now.end }
    requires node { node < length subject.now.unfolded.now.nodes }
    requires right { let s = subject.now in
        IsRight table.old s.unfolded.now s.machine.now work.old }
    ensures costs { let s = subject.now in (family : List VectorOf)
        → slice_get s.certificate.now.families node ≡ Some family
        → IfOk result (AreNodeCosts table.new s.unfolded.now s.machine.now node family) }
    ensures pays { let s = subject.now in OnOk result ((place : ℕ)
        → PaysEdges s.unfolded.now s.machine.now s.classes.now s.certificate.now node place) }
    ensures refused { let s = subject.now in IfErr result
        (NamesPlace (PaysEdges s.unfolded.now s.machine.now s.classes.now s.certificate.now node) 3 node) }
    ensures right { let s = subject.now in
        IsRight table.new s.unfolded.now s.machine.now work.new }
    ensures kept { Keeps table.old table.new }
{
    exits_stay();
    let charged = charged_at(table, subject, node)?;
    let site = Site {
        node,
        classes: classes_at(subject.classes, node),
        charged,
    };
    let family = family_of(subject.certificate, node);
    let costs = family_costs(table, work, subject, &site, stretch, family)?;
    Ok(List::new(costs))
}
