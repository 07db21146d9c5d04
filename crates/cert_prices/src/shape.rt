//! The rules that look at the certificate's lists and numbers alone.

ghost use Rattle.std.specs.Prelude.{◌≡◌, ◌≤◌, ◌&&◌, true, is_some, length, map, All, Decides, IfOk};
ghost use Rattle.wx_base.specs.Facts.{AreAscending};
ghost use Rattle.flow_ctx.specs.Unfolding.{IsUnfolding, most_nodes};
ghost use Rattle.cache_class.specs.Groups.{AreGroups};
ghost use Rattle.cert_rules.specs.Rules.{HasShape, group_of};
ghost use Rattle.cert_prices.specs.Sums.{AreTotalCounts, count_at};

use crate::totals::TotalCounts;
use cache_class::{Classes, Group, groups_are_one, groups_of};
use cert_text::{Certificate, Charge, TotalPrice};
use flow_ctx::Unfolded;
use std::alloc::Global;
use wx_text::NoMemory;

/// Whether a charge is of a group.
fn is_charge_of(charge: &Charge, group: &Group) -> bool
    ensures { Decides result (group_of charge.now ≡ group.now) }
{
    charge.line == group.line && charge.scope == group.scope
}

/// Whether charges are of these groups, in their order.
fn are_charges_of(charges: &[Charge], groups: &[Group]) -> bool
    ensures { Decides result (map group_of charges.now ≡ groups.now) }
{
    if charges.len() != groups.len() {
        return false;
    }
    for number in 0..charges.len() {
        if !is_charge_of(&charges[number], &groups[number]) {
            return false;
        }
    }
    true
}

/// Whether the totals stand in the order of their addresses.
fn are_ascending(totals: &[TotalPrice]) -> bool
    ensures { Decides result (AreAscending (map (λ t. t.address) totals.now)) }
{
    for number in 1..totals.len() {
        if totals[number].address <= totals[number - 1].address {
            return false;
        }
    }
    true
}

/// Whether loops with their heads at each total's address have a total.
fn are_totals(counts: &TotalCounts, totals: &[TotalPrice]) -> bool
    ensures { Decides result (All (λ t. is_some (count_at counts.now t.address) ≡ true) totals.now) }
{
    totals
        .iter()
        .all(|total| counts.get(total.address).is_some())
}

/// Whether there are as many families as nodes, and as many multipliers as loops.
fn have_lengths(u: &Unfolded, c: &Certificate) -> bool
    ensures { Decides result ((length c.now.families ≡ length u.now.nodes)
        × (length c.now.multipliers ≡ length u.now.loops)) }
{
    c.families.len() == u.nodes.len() && c.multipliers.len() == u.loops.len()
}

/// Whether a certificate has a charge for each group, in their order.
fn has_groups(
    alloc: Global,
    u: &Unfolded,
    classes: &Classes,
    c: &Certificate,
) -> Result<bool, NoMemory>
    requires unfolding { IsUnfolding u.now.program u.now }
    requires few { length u.now.nodes ≤ most_nodes }
    ensures { IfOk result (λ b. Decides b (AreGroups u.now classes.now (map group_of c.now.charges))) }
{
    let groups = groups_of(alloc, u, classes)?;
    groups_are_one();
    let charges = c.charges.as_slice();
    Ok(are_charges_of(charges, groups.as_slice()))
}

/// Whether all parts of a shape are right.
fn are_right(lengths: bool, charges: bool, ascending: bool, counted: bool) -> bool
    ensures { result ≡ (((lengths && charges) && ascending) && counted) }
{
    lengths && charges && ascending && counted
}

/// Whether a certificate has a family for each node, a charge for each group, a multiplier for each loop, and prices of
/// totals that there are.
pub fn has_shape(
    alloc: Global,
    u: &Unfolded,
    classes: &Classes,
    c: &Certificate,
    counts: &TotalCounts,
) -> Result<bool, NoMemory>
    requires unfolding { IsUnfolding u.now.program u.now }
    requires few { length u.now.nodes ≤ most_nodes }
    requires counts { AreTotalCounts u.now counts.now }
    ensures { IfOk result (λ b. Decides b (HasShape u.now classes.now c.now)) }
{
    let charges = has_groups(alloc, u, classes, c)?;
    let totals = c.totals.as_slice();
    Ok(are_right(
        have_lengths(u, c),
        charges,
        are_ascending(totals),
        are_totals(counts, totals),
    ))
}
