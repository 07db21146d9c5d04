//! The classes of events.

ghost use Rattle.std.specs.Prelude.{◌≡◌, ◌+◌, ◌<◌, ◌≤◌, ◌^◌, ℕ, length, IfOk, slice_get, Some};
ghost use Rattle.std.specs.List.{list_any, range_with_len};
ghost use Rattle.wx_base.specs.Machine.{IsMachine};
ghost use Rattle.flow_ctx.specs.declared.unfolded.UNode.{UNode as Node};
ghost use Rattle.flow_ctx.specs.Unfolding.{IsUnfolding, most_nodes};
ghost use Rattle.cache_class.specs.Accesses.{slots_of};
ghost use Rattle.flow_block.specs.declared.block.SlotKind.TheVariants as kinds;
ghost use Rattle.cache_class.specs.Classes.{data_class, IsClass, AreNodeClasses, AreClasses};
ghost use Rattle.cache_class.specs.Tables.{place_behind, AreAllClasses, AreClassesTo, AreTables, IsAccess, IsClassAt};

use crate::class::{Class, ClassTable, Classes, NodeClasses};
use crate::lookup::slots_at;
use crate::scopes::outermost_scope;
use crate::sets::verdict_at;
use crate::solving::{numbers_below, tables_of};
use crate::tables::{Access, Tables};
use cache_sets::Verdict;
use flow_block::SlotKind;
use flow_ctx::Unfolded;
use std::alloc::Global;
use wx_base::{Machine, Region};
use wx_text::NoMemory;

/// The class of a fetch, which is an access to its line.
fn fetch_class(alloc: Global, tables: &Tables, access: Access) -> Result<Class, NoMemory>
    requires tables { AreTables tables.now }
    requires access { IsAccess tables.now.flow access.node access.place access.line }
    ensures { IfOk result (IsClass tables.now.shape tables.now.u.now tables.now.flow access.node access.place access.line) }
{
    match verdict_at(tables, access) {
        Verdict::Held => Ok(Class::AlwaysHit),
        Verdict::Barred => Ok(Class::AlwaysMiss),
        Verdict::Unsure => match outermost_scope(alloc, tables, access)? {
            Some(scope) => Ok(Class::FirstMiss { scope }),
            None => Ok(Class::Open),
        },
    }
}

/// Whether an access to a byte of some region is slow.
fn is_some_slow(regions: &[Region]) -> bool
    ensures { result ≡ list_any (λ region. region.slow) regions.now }
{
    regions.iter().any(|region| region.slow)
}

/// The class of accesses to data: without a slow region they are fast.
fn data_class(machine: &Machine) -> Class
    ensures { result ≡ data_class machine.now }
{
    if is_some_slow(machine.regions.as_slice()) {
        Class::Open
    } else {
        Class::AlwaysHit
    }
}

/// The class of an event of a node, before which the node makes so many accesses.
fn event_class(
    alloc: Global,
    machine: &Machine,
    tables: &Tables,
    node: u32,
    place: usize,
    kind: SlotKind,
) -> Result<Class, NoMemory>
    requires tables { AreTables tables.now }
    requires shape { tables.now.shape ≡ machine.now.shape }
    requires access { (line : ℕ) → kind ≡ kinds.Fetch line → IsAccess tables.now.flow node place line }
    ensures { IfOk result (IsClassAt machine.now tables.now.u.now tables.now.flow node place kind) }
{
    match kind {
        SlotKind::Fetch { line } => {
            let access = Access { node, place, line };
            fetch_class(alloc, tables, access)
        }
        SlotKind::Multiply => Ok(Class::Open),
        SlotKind::Data => Ok(data_class(machine)),
    }
}

/// How many accesses a node makes up to an event, which itself is one if it is a fetch.
fn place_behind(place: usize, kind: SlotKind) -> usize
    requires { place + 1 < 2 ^ 64 }
    ensures { result ≡ place_behind place kind }
{
    match kind {
        SlotKind::Fetch { .. } => place + 1,
        SlotKind::Multiply | SlotKind::Data => place,
    }
}

/// The classes of a node's events.
fn node_classes(
    alloc: Global,
    machine: &Machine,
    tables: &Tables,
    node: u32,
) -> Result<NodeClasses, NoMemory>
    requires tables { AreTables tables.now }
    requires shape { tables.now.shape ≡ machine.now.shape }
    requires node { node < length tables.now.u.now.nodes }
    ensures { IfOk result (λ classes. (n : Node) → slice_get tables.now.u.now.nodes node ≡ Some n
        → AreNodeClasses machine.now tables.now.u.now tables.now.flow node
        (slots_of tables.now.u.now.program n) classes) }
{
    let slots = slots_at(tables.u, node);
    let mut classes = Vec::with_capacity(alloc, slots.len())?;
    let mut place = 0;
    for slot in slots {
        let kind = slot.kind;
        classes.push(event_class(alloc, machine, tables, node, place, kind)?)?;
        place = place_behind(place, kind);
    }
    Ok(NodeClasses::new(classes))
}

/// The classes of the events of all nodes.
fn all_classes(
    alloc: Global,
    machine: &Machine,
    tables: &Tables,
) -> Result<Vec<NodeClasses>, NoMemory>
    requires tables { AreTables tables.now }
    requires shape { tables.now.shape ≡ machine.now.shape }
    ensures { IfOk result (λ all. AreClassesTo machine.now tables.now.u.now tables.now.flow
        (length tables.now.u.now.nodes) all.items) }
{
    let mut all = Vec::with_capacity(alloc, tables.u.nodes.len())?;
    for node in 0..tables.u.nodes.len() {
        all.push(node_classes(alloc, machine, tables, node as u32)?)?;
    }
    Ok(all)
}

/// The classes of all events of an unfolding, whose nodes these are.
fn classes_of(
    alloc: Global,
    u: &Unfolded,
    nodes: &[u32],
    machine: &Machine,
) -> Result<Vec<NodeClasses>, NoMemory>
    requires unfolding { IsUnfolding u.now.program u.now }
    requires few { length u.now.nodes ≤ most_nodes }
    requires machine { IsMachine machine.now }
    requires nodes { nodes.now ≡ range_with_len 0 (length u.now.nodes) }
    ensures { IfOk result (λ all. AreAllClasses u.now machine.now all.items) }
{
    let tables = tables_of(alloc, machine.shape, u, nodes)?;
    let all = all_classes(alloc, machine, &tables)?;
    Ok(all)
}

/// The classes of all events of an unfolding on a machine.
pub fn classify(alloc: Global, u: &Unfolded, machine: &Machine) -> Result<Classes, NoMemory>
    requires unfolding { IsUnfolding u.now.program u.now }
    requires few { length u.now.nodes ≤ most_nodes }
    requires machine { IsMachine machine.now }
    ensures { IfOk result (AreClasses u.now machine.now) }
{
    let nodes = numbers_below(alloc, u.nodes.len() as u32)?;
    let slots = classes_of(alloc, u, nodes.as_slice(), machine)?;
    Ok(Classes {
        slots: ClassTable::new(slots),
    })
}
