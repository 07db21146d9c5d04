//! The whole check: the rules in the order 0, 4, 1, 2, 3, 5.

ghost use Rattle.std.specs.Prelude.{◌≡◌, ◌≤◌, length, IfErr, IfOk, OnOk};
ghost use Rattle.wx_base.specs.declared.machine.Machine.{Machine as MachineOf};
ghost use Rattle.wx_base.specs.Machine.{IsMachine};
ghost use Rattle.flow_ctx.specs.Laws.{IsUnfoldedOn};
ghost use Rattle.flow_ctx.specs.Unfolding.{IsUnfolding, most_nodes};
ghost use Rattle.xdd_table.specs.Diagram.{Keeps};
ghost use Rattle.cache_class.specs.Classes.{AreClasses};
ghost use Rattle.cert_rules.specs.Rules.{HasShape, HasSmallNumbers, HasStart, IsValid};
ghost use Rattle.cert_prices.specs.Sums.{AreTotalCounts};
ghost use Rattle.cert_check.specs.declared.refused.Refused.TheVariants as refusal;
ghost use Rattle.cert_check.specs.Answers.{IsAccepted, IsRefusal};
ghost use Rattle.cert_check.specs.Judging.{Breaks};
ghost use Rattle.cert_check.specs.Places.{AreCosts, AreFinishes};

use crate::checked::Checked;
use crate::nodes::judge_vectors;
use crate::refused::Refused;
use crate::subject::Subject;
use cache_class::{Classes, classify};
use cert_prices::{
    ChargeTable, TotalCounts, edge_prices, has_bound, has_shape, has_small_numbers, has_start,
    total_counts,
};
use cert_text::Certificate;
use flow_ctx::Unfolded;
use std::alloc::Global;
use wx_base::Machine;
use wx_text::List;
use xdd_table::Table;

/// The refusal for a rule that speaks of the whole certificate.
fn broken(rule: u64) -> Refused
    ensures { result ≡ refusal.Rejected rule 0 0 }
{
    Refused::Rejected {
        rule,
        node: 0,
        vector: 0,
    }
}

/// Tries the rules on the lists and numbers of a certificate: 0, 4 and 1.
fn judge_lists(
    alloc: Global,
    u: &Unfolded,
    classes: &Classes,
    c: &Certificate,
    counts: &TotalCounts,
) -> Result<(), Refused>
    requires unfolding { IsUnfolding u.now.program u.now }
    requires few { length u.now.nodes ≤ most_nodes }
    requires counts { AreTotalCounts u.now counts.now }
    ensures shape { OnOk result (HasShape u.now classes.now c.now) }
    ensures small { OnOk result (HasSmallNumbers c.now) }
    ensures start { OnOk result (HasStart u.now c.now) }
    ensures refused { (m : MachineOf) → IfErr result (Breaks u.now m classes.now c.now) }
{
    let shape = has_shape(alloc, u, classes, c, counts)?;
    if !shape {
        return Err(broken(0));
    }
    if !has_small_numbers(c) {
        return Err(broken(4));
    }
    if !has_start(u, c) {
        return Err(broken(1));
    }
    Ok(())
}

/// Tries all rules, where the events of the unfolding have these classes.
fn judge(
    table: &mut Table,
    u: &Unfolded,
    m: &Machine,
    classes: &Classes,
    c: &Certificate,
) -> Result<Checked, Refused>
    requires machine { IsMachine m.now }
    requires unfolded { IsUnfoldedOn m.now u.now }
    requires few { length u.now.nodes ≤ most_nodes }
    requires classes { AreClasses u.now m.now classes.now }
    ensures accepted { OnOk result (IsValid u.now m.now classes.now c.now) }
    ensures refused { IfErr result (Breaks u.now m.now classes.now c.now) }
    ensures bound { IfOk result (λ checked. checked.bound ≡ c.now.bound) }
    ensures finishes { IfOk result (λ checked.
        AreFinishes table.new u.now m.now c.now.families checked.finishes) }
    ensures costs { IfOk result (λ checked. AreCosts table.new u.now m.now c.now.families checked.costs) }
    ensures kept { Keeps table.old table.new }
{
    let alloc = table.allocator();
    let counts = total_counts(alloc, u)?;
    judge_lists(alloc, u, classes, c, &counts)?;
    let charges = ChargeTable::new(alloc, c.charges.as_slice())?;
    let prices = edge_prices(alloc, u, c)?;
    let subject = Subject {
        unfolded: u,
        machine: m,
        classes,
        certificate: c,
        charges: &charges,
        prices: &prices,
    };
    let diagrams = judge_vectors(table, &subject)?;
    let bound = has_bound(alloc, u, c, &counts)?;
    if !bound {
        return Err(broken(5));
    }
    Ok(Checked {
        bound: c.bound,
        finishes: List::new(diagrams.finishes),
        costs: List::new(diagrams.costs),
    })
}

/// Whether a certificate is valid for an unfolding on a machine: it is accepted exactly then. Else the first rule
/// that it breaks is named, in the order 0, 4, 1, 2, 3, 5, with the first node, and of that the first vector, that
/// breaks it.
///
/// What an accepted certificate says is tested over diagrams, which the table has afterwards: the finish of a node's
/// block from each vector of the node, and the cost along each of the node's edges. Other diagrams of the table keep
/// their places and their meaning, whatever the answer is. The only other error is want of memory.
///
/// The time goes by the vectors, the edges and the different parts of the diagrams, and for each edge and outcome by
/// the vectors of the edge's target.
/// What blocks hand on is kept for the vectors of a stretch of nodes alone, 4,096 of them at most beside those of
/// the last node.
pub fn check(
    u: &Unfolded,
    m: &Machine,
    c: &Certificate,
    table: &mut Table,
) -> Result<Checked, Refused>
    requires machine { IsMachine m.now }
    requires unfolded { IsUnfoldedOn m.now u.now }
    requires few { length u.now.nodes ≤ most_nodes }
    ensures accepted { OnOk result (IsAccepted u.now m.now c.now) }
    ensures refused { IfErr result (IsRefusal u.now m.now c.now) }
    ensures bound { IfOk result (λ checked. checked.bound ≡ c.now.bound) }
    ensures finishes { IfOk result (λ checked.
        AreFinishes table.new u.now m.now c.now.families checked.finishes) }
    ensures costs { IfOk result (λ checked. AreCosts table.new u.now m.now c.now.families checked.costs) }
    ensures kept { Keeps table.old table.new }
{
    let classes = classify(table.allocator(), u, m)?;
    judge(table, u, m, &classes, c)
}
