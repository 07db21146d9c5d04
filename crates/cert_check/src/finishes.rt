//! The rule on runs that end: in each node's block each vector pays for the block's finish.

ghost use Rattle.std.specs.Prelude.{◌≡◌, ◌<◌, ℕ, List, length, slice_get, All, Decides, Some, IfErr, IfOk};
ghost use Rattle.std.specs.Prelude.{MatchOption, OnOk};
ghost use Rattle.xdd_table.specs.Diagram.{Keeps};
ghost use Rattle.node_exits.specs.NodeExits.{IsRight};
ghost use Rattle.cert_text.specs.declared.certificate.CertVector.{CertVector as VectorOf};
ghost use Rattle.cert_rules.specs.Rules.{IsSmallVector, PaysFinish};
ghost use Rattle.cert_check.specs.Places.{AreNodeFinishes, IsFinish};
ghost use Rattle.cert_check.specs.Judging.{FamilyPays, HasCharges, IsSite, IsSubject, NamesPlace};
ghost use Rattle.cert_check.specs.Judging.{VectorPaysFinish};

use crate::charging::charged_at;
use crate::checked::Finishes;
use crate::refused::Refused;
use crate::subject::{Site, Subject, classes_at, family_of, offer_at};
use crate::work::finish_from;
use cert_judge::pays_finish;
use cert_text::CertVector;
use node_exits::{Work, exits_stay};
use wx_text::{List, NoMemory};
use xdd_table::{Dd, Table};

/// The number of the rule.
const RULE: u64 = 2;

/// Whether a vector pays for this finish.
fn finish_pays(
    table: &mut Table,
    end: Dd,
    subject: &Subject,
    site: &Site,
    v: &CertVector,
) -> Result<bool, NoMemory>
    requires site { let s = subject.now in
        IsSite table.old s.unfolded.now s.classes.now s.certificate.now site.now.node site.now.classes.now
        site.now.charged }
    requires small { IsSmallVector v.now }
    requires finish { let s = subject.now in
        IsFinish table.old s.unfolded.now s.machine.now site.now.node v.now end }
    ensures pays { let s = subject.now in IfOk result (λ pays. Decides pays
        (VectorPaysFinish s.unfolded.now s.machine.now s.classes.now s.certificate.now site.now.node v.now)) }
    ensures kept { Keeps table.old table.new }
{
    pays_finish(table, end, &offer_at(site, v.potential))
}

/// The finish of a node's block from a vector, if the vector pays for it.
fn paid_finish(
    table: &mut Table,
    work: &mut Work,
    subject: &Subject,
    site: &Site,
    v: &CertVector,
) -> Result<Option<Dd>, NoMemory>
    requires subject { let s = subject.now in
        IsSubject s.unfolded.now s.machine.now s.classes.now s.certificate.now }
    requires site { let s = subject.now in
        IsSite table.old s.unfolded.now s.classes.now s.certificate.now site.now.node site.now.classes.now
        site.now.charged }
    requires node { site.now.node < length subject.now.unfolded.now.nodes }
    requires small { IsSmallVector v.now }
    requires right { let s = subject.now in
        IsRight table.old s.unfolded.now s.machine.now work.old }
    ensures finish { let s = subject.now in
        let pays = VectorPaysFinish s.unfolded.now s.machine.now s.classes.now s.certificate.now site.now.node v.now in
        IfOk result (λ found. MatchOption found (pays → ⊥)
        (λ d. pays × IsFinish table.new s.unfolded.now s.machine.now site.now.node v.now d)) }
    ensures right { let s = subject.now in
        IsRight table.new s.unfolded.now s.machine.now work.new }
    ensures kept { Keeps table.old table.new }
{
    exits_stay();
    let end = finish_from(table, work, subject, site.node, v)?;
    let pays = finish_pays(table, end, subject, site, v)?;
    if pays { Ok(Some(end)) } else { Ok(None) }
}

/// The finishes from the vectors of a node, if all pay for them.
fn family_finishes(
    table: &mut Table,
    work: &mut Work,
    subject: &Subject,
    site: &Site,
    family: &[CertVector],
) -> Result<Vec<Dd>, Refused>
    requires subject { let s = subject.now in
        IsSubject s.unfolded.now s.machine.now s.classes.now s.certificate.now }
    requires site { let s = subject.now in
        IsSite table.old s.unfolded.now s.classes.now s.certificate.now site.now.node site.now.classes.now
        site.now.charged }
    requires node { site.now.node < length subject.now.unfolded.now.nodes }
    requires small { All IsSmallVector family.now }
    requires right { let s = subject.now in
        IsRight table.old s.unfolded.now s.machine.now work.old }
    ensures finishes { let s = subject.now in IfOk result (λ finishes.
        AreNodeFinishes table.new s.unfolded.now s.machine.now site.now.node family.now finishes.items) }
    ensures pays { let s = subject.now in
        let pays = VectorPaysFinish s.unfolded.now s.machine.now s.classes.now s.certificate.now site.now.node in
        OnOk result ((place : ℕ) → FamilyPays pays family.now place) }
    ensures refused { let s = subject.now in
        let pays = VectorPaysFinish s.unfolded.now s.machine.now s.classes.now s.certificate.now site.now.node in
        IfErr result (NamesPlace (FamilyPays pays family.now) 2 site.now.node) }
    ensures right { let s = subject.now in
        IsRight table.new s.unfolded.now s.machine.now work.new }
    ensures kept { Keeps table.old table.new }
{
    let mut finishes = Vec::new(table.allocator());
    for place in 0..family.len() {
        match paid_finish(table, work, subject, site, &family[place])? {
            Some(found) => finishes.push(found)?,
            None => {
                return Err(Refused::Rejected {
                    rule: RULE,
                    node: u64::from(site.node),
                    vector: place as u64,
                });
            }
        }
    }
    Ok(finishes)
}

/// The finishes from the vectors of a node, if all pay for them.
pub(crate) fn node_finishes(
    table: &mut Table,
    work: &mut Work,
    subject: &Subject,
    node: u32,
) -> Result<Finishes, Refused>
    requires subject { let s = subject.now in
        IsSubject s.unfolded.now s.machine.now s.classes.now s.certificate.now }
    requires charges { HasCharges subject.now.charges.now subject.now.certificate.now.charges }
    requires node { node < length subject.now.unfolded.now.nodes }
    requires right { let s = subject.now in
        IsRight table.old s.unfolded.now s.machine.now work.old }
    ensures finishes { let s = subject.now in (family : List VectorOf)
        → slice_get s.certificate.now.families node ≡ Some family
        → IfOk result (AreNodeFinishes table.new s.unfolded.now s.machine.now node family) }
    ensures pays { let s = subject.now in OnOk result ((place : ℕ)
        → PaysFinish s.unfolded.now s.machine.now s.classes.now s.certificate.now node place) }
    ensures refused { let s = subject.now in IfErr result
        (NamesPlace (PaysFinish s.unfolded.now s.machine.now s.classes.now s.certificate.now node) 2 node) }
    ensures right { let s = subject.now in
        IsRight table.new s.unfolded.now s.machine.now work.new }
    ensures kept { Keeps table.old table.new }
{
    exits_stay();
    let charged = charged_at(table, subject, node)?;
    let site = Site {
        node,
        classes: classes_at(subject.classes, node),
        charged,
    };
    let family = family_of(subject.certificate, node);
    let finishes = family_finishes(table, work, subject, &site, family)?;
    Ok(List::new(finishes))
}
