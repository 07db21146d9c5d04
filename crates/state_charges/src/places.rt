//! The positions of groups, and the events of a block that belong to groups.

ghost use Rattle.std.specs.Prelude.{◌≡◌, ℕ, ◌≤◌, AllPairs, if◌then◌else◌, length, Some, IfOk, OnOk};
ghost use Rattle.cache_class.specs.Groups.{IsGroupBefore};
ghost use Rattle.cache_class.specs.declared.group.Group.{Group as GroupOf};
ghost use Rattle.state_charges.specs.Misses.{AreMisses, ArePlaces, event_place, key_of, number_of, place_in, same_key};

use crate::miss::Miss;
use cache_class::{Class, Group, Groups};
use flow_block::{Slot, SlotKind};
use flow_ctx::Scope;
use indexmap::IndexMap;
use std::alloc::Global;
use wx_text::NoMemory;

/// Groups in their order, with their positions by line and scope.
#[derive(Drop)]
pub(crate) struct GroupPlaces {
    pub groups: Groups,
    pub places: IndexMap<(u32, Option<u32>), usize>,
}

/// The number of a scope's loop, if it is one.
fn number_of(scope: Scope) -> Option<u32>
    ensures { result ≡ number_of scope }
{
    match scope {
        Scope::Run => None,
        Scope::Loop { number } => Some(number),
    }
}

/// Notes the position of a group.
fn insert_place(
    places: &mut IndexMap<(u32, Option<u32>), usize>,
    group: &Group,
    place: usize,
) -> Result<(), NoMemory>
    ensures { OnOk result ((other : GroupOf) → place_in places.new.entries other
        ≡ (if same_key (key_of group.now) (key_of other) then Some place else place_in places.old.entries other)) }
{
    places.insert((group.line, number_of(group.scope)), place)?;
    Ok(())
}

/// The positions of groups in their order.
fn places_of(
    alloc: Global,
    groups: &[Group],
) -> Result<IndexMap<(u32, Option<u32>), usize>, NoMemory>
    requires { AllPairs IsGroupBefore groups.now }
    ensures { IfOk result (λ places. ArePlaces groups.now places.entries) }
{
    let mut places = IndexMap::new(alloc);
    for place in 0..groups.len() {
        insert_place(&mut places, &groups[place], place)?;
    }
    Ok(places)
}

impl GroupPlaces {
    /// The positions of groups in their order. The time is that of their number.
    pub fn new(alloc: Global, groups: Groups) -> Result<GroupPlaces, NoMemory>
        requires { AllPairs IsGroupBefore groups }
        ensures groups { IfOk result (λ made. made.groups ≡ groups) }
        ensures places { IfOk result (λ made. ArePlaces groups made.places.entries) }
    {
        let places = places_of(alloc, groups.as_slice())?;
        Ok(GroupPlaces { groups, places })
    }

    /// The position of the group of a line and a scope.
    fn get(&self, line: u32, scope: Scope) -> Option<usize>
        ensures { result ≡ place_in self.now.places.entries (record { line = line; scope = scope }) }
    {
        self.places.get(&(line, number_of(scope))).copied()
    }

    /// The position of the group that an event of a class belongs to, if it belongs to one.
    fn of_event(&self, kind: SlotKind, class: Class) -> Option<usize>
        ensures { result ≡ event_place self.now.places.entries kind class }
    {
        match (kind, class) {
            (SlotKind::Fetch { line }, Class::FirstMiss { scope }) => self.get(line, scope),
            _ => None,
        }
    }
}

/// The events of a block that belong to groups, in their order.
pub(crate) fn misses_of(
    alloc: Global,
    places: &GroupPlaces,
    slots: &[Slot],
    classes: &[Class],
) -> Result<Vec<Miss>, NoMemory>
    requires few { length slots.now ≤ 12 }
    requires long { length classes.now ≡ length slots.now }
    requires places { ArePlaces places.now.groups places.now.places.entries }
    ensures { IfOk result (λ misses. AreMisses places.now.groups slots.now classes.now misses.items) }
{
    let mut misses = Vec::new(alloc);
    for event in 0..slots.len() {
        if let Some(group) = places.of_event(slots[event].kind, classes[event]) {
            misses.push(Miss {
                event: event as u32,
                group,
            })?;
        }
    }
    Ok(misses)
}
