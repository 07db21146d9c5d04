//! The groups of a table of classes.

ghost use Rattle.std.specs.Prelude.{◌≡◌, ◌+◌, ◌<◌, ◌≤◌, ◌⊎◌, ◌↔◌, length, map, Contains, IfOk, OnOk, Some};
ghost use Rattle.std.specs.List.Sorted.{IsStrictlySortedBy};
ghost use Rattle.std.specs.Option.{option_map};
ghost use Rattle.flow_ctx.specs.Unfolding.{IsUnfolding, most_nodes};
ghost use Rattle.cache_class.specs.declared.group.Group.{Group as Grouped};
ghost use Rattle.cache_class.specs.Groups.{AreGroups};
ghost use Rattle.cache_class.specs.GroupsSoFar.{scope_at, group_at, key_cmp, group_of, AreGroupsTo};

use crate::class::{Class, Classes};
use crate::flows::fetched;
use crate::group::{Group, Groups};
use crate::lookup::slots_at;
use flow_block::Slot;
use flow_ctx::{Scope, Unfolded};
use std::alloc::{AllocError, Global};
use std::collections::BTreeSet;
use wx_text::NoMemory;

/// A group as its line and the number of its loop, or none for the run: tuples stand in the order of groups.
type Key = (u32, Option<u32>);

/// The number of the scope's loop, if it is one.
fn number_of(scope: Scope) -> Option<u32>
    ensures { scope_at result ≡ scope }
{
    match scope {
        Scope::Run => None,
        Scope::Loop { number } => Some(number),
    }
}

/// The loop with a number, else the run.
fn scope_at(number: Option<u32>) -> Scope
    ensures { result ≡ scope_at number }
{
    match number {
        None => Scope::Run,
        Some(number) => Scope::Loop { number },
    }
}

/// The group of a key.
fn group_at(key: &Key) -> Group
    ensures { result ≡ group_at key.now }
{
    Group {
        line: key.0,
        scope: scope_at(key.1),
    }
}

/// The key of the group that an event belongs to.
fn key_of(slot: &Slot, class: &Class) -> Option<Key>
    ensures { option_map group_at result ≡ group_of slot.now.kind class.now }
{
    let line = fetched(slot)?;
    match *class {
        Class::FirstMiss { scope } => Some((line, number_of(scope))),
        Class::AlwaysHit | Class::AlwaysMiss | Class::Open => None,
    }
}

/// Adds the group of an event, if it belongs to one.
fn add_event(set: &mut BTreeSet<Key>, slot: &Slot, class: &Class) -> Result<(), NoMemory>
    ensures { OnOk result ((group : Grouped) → Contains (map group_at set.new.keys) group
        ↔ (Contains (map group_at set.old.keys) group ⊎ (group_of slot.now.kind class.now ≡ Some group))) }
{
    let Some(key) = key_of(slot, class) else {
        return Ok(());
    };
    set.insert(key)?;
    Ok(())
}

/// Adds the groups of a node's events.
fn add_node(
    set: &mut BTreeSet<Key>,
    u: &Unfolded,
    classes: &Classes,
    node: usize,
) -> Result<(), NoMemory>
    requires unfolding { IsUnfolding u.now.program u.now }
    requires few { length u.now.nodes ≤ most_nodes }
    requires node { node < length u.now.nodes }
    requires listed { node < length classes.now.slots }
    requires groups { AreGroupsTo u.now classes.now node 0 (map group_at set.old.keys) }
    ensures { OnOk result (AreGroupsTo u.now classes.now (node + 1) 0 (map group_at set.new.keys)) }
{
    let slots = slots_at(u, node as u32);
    let listed = classes.slots.as_slice()[node].as_slice();
    for i in 0..slots.len().min(listed.len()) {
        add_event(set, &slots[i], &listed[i])?;
    }
    Ok(())
}

/// The groups of a set, in order.
fn in_order(alloc: Global, set: &BTreeSet<Key>) -> Result<Vec<Group>, AllocError>
    ensures all { IfOk result (λ groups. groups.items ≡ map group_at set.now.keys) }
    ensures ordered { IsStrictlySortedBy key_cmp set.now.keys }
{
    set.iter().map(|key| group_at(key)).collect(alloc)
}

/// The groups of a table of classes: each line with each scope of which some fetch of it is a first miss.
///
/// Takes time in the events, and for each event of a group in the logarithm of the number of groups.
pub fn groups_of(alloc: Global, u: &Unfolded, classes: &Classes) -> Result<Groups, NoMemory>
    requires unfolding { IsUnfolding u.now.program u.now }
    requires few { length u.now.nodes ≤ most_nodes }
    ensures { IfOk result (AreGroups u.now classes.now) }
{
    let mut set = BTreeSet::new(alloc);
    for node in 0..u.nodes.len().min(classes.slots.len()) {
        add_node(&mut set, u, classes, node)?;
    }
    Ok(Groups::new(in_order(alloc, &set)?))
}
