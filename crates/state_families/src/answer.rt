//! The vectors of the nodes of an unfolding.

ghost use Rattle.std.specs.Prelude.{◌≡◌, ◌≤◌, length, map, IfOk};
ghost use Rattle.wx_base.specs.Machine.{IsMachine};
ghost use Rattle.flow_ctx.specs.Laws.{IsUnfoldedOn};
ghost use Rattle.flow_ctx.specs.Unfolding.{most_nodes};
ghost use Rattle.xdd_table.specs.Diagram.{Keeps};
ghost use Rattle.cache_class.specs.Classes.{AreClasses};
ghost use Rattle.state_families.specs.Families.{AreFamilies, joined_from, vector_of};
ghost use Rattle.state_families.specs.Small.{AreSmall};

use crate::family_set::{FamilySet, Joined, Vectors};
use crate::node_set::{NodeSet, Slots};
use crate::rounds::settled_sets;
use crate::subject::Subject;
use cache_class::Classes;
use flow_ctx::Unfolded;
use pipe_time::Vector;
use std::alloc::Global;
use wx_base::Machine;
use wx_text::{List, NoMemory};
use xdd_table::Table;

/// Slots as vectors.
fn vectors_of(alloc: Global, list: &[Slots]) -> Result<Vectors, NoMemory>
    ensures { IfOk result (λ vectors. vectors ≡ map vector_of list.now) }
{
    let mut vectors = Vec::with_capacity(alloc, list.len())?;
    for slots in list {
        vectors.push(Vector { slots: *slots })?;
    }
    Ok(List::new(vectors))
}

/// The vectors of all nodes.
fn all_vectors(alloc: Global, sets: &[NodeSet]) -> Result<List<Vectors>, NoMemory>
    ensures { IfOk result (λ all. all ≡ map (λ set. map vector_of set.vectors) sets.now) }
{
    let mut all = Vec::with_capacity(alloc, sets.len())?;
    for set in sets {
        all.push(vectors_of(alloc, set.vectors.as_slice())?)?;
    }
    Ok(List::new(all))
}

/// The joined nodes with their kept vectors.
fn joined_nodes(alloc: Global, sets: &[NodeSet]) -> Result<List<Joined>, NoMemory>
    requires { length sets.now ≤ most_nodes }
    ensures { IfOk result (λ joined. joined ≡ joined_from 0 sets.now) }
{
    let mut joined = Vec::new(alloc);
    for node in 0..sets.len() {
        match &sets[node].kept {
            Some(kept) => joined.push(Joined {
                node: node as u32,
                kept: vectors_of(alloc, kept.as_slice())?,
            })?,
            None => {}
        }
    }
    Ok(List::new(joined))
}

/// The vectors of the nodes of an unfolding: those with which runs may come to the node, or, where these are more than
/// the machine's `states`, one that covers them all. Classes are those of the unfolding's events on the machine.
///
/// The only error is want of memory. Diagrams of the table keep their places and their times. A vector brings its exits
/// once, so the time goes by the nodes and their vectors, and for each by the outcomes of its block.
pub fn families(
    u: &Unfolded,
    k: &Classes,
    m: &Machine,
    table: &mut Table,
) -> Result<FamilySet, NoMemory>
    requires machine { IsMachine m.now }
    requires unfolded { IsUnfoldedOn m.now u.now }
    requires few { length u.now.nodes ≤ most_nodes }
    requires classes { AreClasses u.now m.now k.now }
    ensures families { IfOk result (AreFamilies u.now m.now k.now) }
    ensures small { IfOk result (λ f. AreSmall f.vectors) }
    ensures kept { Keeps table.old table.new }
{
    let subject = Subject {
        unfolded: u,
        classes: k,
        machine: m,
    };
    let sets = settled_sets(table, &subject)?;
    let alloc = table.allocator();
    Ok(FamilySet {
        vectors: all_vectors(alloc, sets.as_slice())?,
        joined: joined_nodes(alloc, sets.as_slice())?,
    })
}
