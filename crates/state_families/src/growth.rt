//! What becomes of a node in a round.

ghost use Rattle.std.specs.Prelude.{◌≡◌, ◌⊎◌, ◌<◌, ℕ, List, [], ◌∷◌, length, Contains, None, IfOk, OnOk};
ghost use Rattle.std.specs.List.Sorted.{IsStrictlySortedBy};
ghost use Rattle.std.specs.Ordering.{nat_cmp};
ghost use Rattle.std.specs.Cmp.Lexicographic.{slice_cmp};
ghost use Rattle.wx_base.specs.Machine.{IsMachine};
ghost use Rattle.state_families.specs.Families.{IsGreatest};
ghost use Rattle.state_families.specs.Fresh.{IsBounded, IsSet};
ghost use Rattle.state_families.specs.Growth.{AreHigher, IsAdded, IsGrowth, IsMerged, Joins};

use crate::node_set::{NodeSet, Slots};
use std::alloc::{AllocError, Global};
use std::collections::BTreeSet;
use wx_base::Machine;
use wx_text::{List, NoMemory};

/// Slot by slot the greater of two vectors.
fn higher(a: &Slots, b: &Slots) -> Slots
    ensures { AreHigher a.now b.now result }
{
    let mut slots = *a;
    for k in 0..35 {
        slots[k] = slots[k].max(b[k]);
    }
    slots
}

/// Slot by slot the greatest of a vector and others.
fn greatest(first: &Slots, others: &[Slots]) -> Slots
    ensures { IsGreatest (λ slots. (slots ≡ first.now) ⊎ Contains others.now slots) result }
{
    let mut slots = *first;
    for other in others {
        slots = higher(&slots, other);
    }
    slots
}

/// A list of one vector.
fn only(alloc: Global, slots: Slots) -> Result<List<Slots>, NoMemory>
    ensures { IfOk result (λ list. list ≡ slots ∷ []) }
{
    let mut list = Vec::with_capacity(alloc, 1)?;
    list.push(slots)?;
    Ok(List::new(list))
}

/// The vectors of a set, in order.
fn in_order(alloc: Global, set: &BTreeSet<Slots>) -> Result<Vec<Slots>, AllocError>
    ensures all { IfOk result (λ list. list.items ≡ set.now.keys) }
    ensures ordered { IsStrictlySortedBy (slice_cmp nat_cmp) set.now.keys }
{
    set.iter().copied().collect(alloc)
}

/// Puts ascending vectors into an empty set.
fn add_all(set: &mut BTreeSet<Slots>, vectors: &[Slots]) -> Result<(), NoMemory>
    requires empty { set.old.keys ≡ [] }
    requires ascending { IsStrictlySortedBy (slice_cmp nat_cmp) vectors.now }
    ensures { OnOk result (set.new.keys ≡ vectors.now) }
{
    for slots in vectors {
        set.insert(*slots)?;
    }
    Ok(())
}

/// Adds vectors to a set, and gives those that it lacked.
fn add_fresh(
    alloc: Global,
    set: &mut BTreeSet<Slots>,
    arrivals: &[Slots],
) -> Result<Vec<Slots>, NoMemory>
    ensures { IfOk result (λ fresh. IsAdded set.old.keys arrivals.now set.new.keys fresh.items) }
{
    let mut fresh = Vec::new(alloc);
    for slots in arrivals {
        if set.insert(*slots)? {
            fresh.push(*slots)?;
        }
    }
    Ok(fresh)
}

/// Vectors of a node with those that arrive.
#[derive(Drop)]
struct Merged {
    /// All of them, ascending.
    union: Vec<Slots>,
    /// Those that arrive and that the node lacked, each once.
    fresh: Vec<Slots>,
}

/// The vectors of a node with those that arrive.
fn merge(alloc: Global, vectors: &[Slots], arrivals: &[Slots]) -> Result<Merged, NoMemory>
    requires ascending { IsStrictlySortedBy (slice_cmp nat_cmp) vectors.now }
    ensures { IfOk result (λ merged. IsMerged vectors.now arrivals.now merged.union.items merged.fresh.items) }
{
    let mut set = BTreeSet::new(alloc);
    add_all(&mut set, vectors)?;
    let fresh = add_fresh(alloc, &mut set, arrivals)?;
    Ok(Merged {
        union: in_order(alloc, &set)?,
        fresh,
    })
}

/// Joins a node whose vectors are too many: one stands for them, and the first of them are kept.
fn join(
    alloc: Global,
    set: &mut NodeSet,
    vectors: Vec<Slots>,
    states: usize,
) -> Result<List<Slots>, NoMemory>
    requires many { states < length vectors.items }
    ensures { IfOk result (Joins states vectors.items set.new) }
{
    let all = vectors.as_slice();
    let slots = greatest(&all[0], all);
    let fresh = only(alloc, slots)?;
    let one = only(alloc, slots)?;
    let mut kept = vectors;
    kept.truncate(states + 1);
    set.vectors = one;
    set.kept = Some(List::new(kept));
    Ok(fresh)
}

/// Takes what arrives at a node that is not joined, and gives what is new there.
fn unite(
    alloc: Global,
    set: &mut NodeSet,
    arrivals: &[Slots],
    m: &Machine,
) -> Result<List<Slots>, NoMemory>
    requires machine { IsMachine m.now }
    requires open { set.old.kept ≡ None }
    requires sound { IsSet m.now.states m.now.horizon set.old }
    requires arrivals { (slots : List ℕ) → Contains arrivals.now slots → IsBounded m.now.horizon slots }
    ensures { IfOk result (IsGrowth m.now.states m.now.horizon (Contains arrivals.now) set.old set.new) }
{
    let Merged { union, fresh } = merge(alloc, set.vectors.as_slice(), arrivals)?;
    if fresh.is_empty() {
        return Ok(List::new(fresh));
    }
    let states = m.states as usize;
    if union.len() > states {
        return join(alloc, set, union, states);
    }
    set.vectors = List::new(union);
    Ok(List::new(fresh))
}

/// Raises the vector of a joined node over what arrives, and gives it if it is new.
fn raise(
    alloc: Global,
    set: &mut NodeSet,
    arrivals: &[Slots],
    m: &Machine,
) -> Result<List<Slots>, NoMemory>
    requires joined { set.old.kept ≡ None → ⊥ }
    requires sound { IsSet m.now.states m.now.horizon set.old }
    requires arrivals { (slots : List ℕ) → Contains arrivals.now slots → IsBounded m.now.horizon slots }
    ensures { IfOk result (IsGrowth m.now.states m.now.horizon (Contains arrivals.now) set.old set.new) }
{
    let one = set.vectors.as_slice()[0];
    let raised = greatest(&one, arrivals);
    if raised == one {
        return Ok(List::new(Vec::new(alloc)));
    }
    let fresh = only(alloc, raised)?;
    set.vectors = only(alloc, raised)?;
    Ok(fresh)
}

/// Takes what arrives at a node in a round, and gives what is new there.
pub(crate) fn grow(
    alloc: Global,
    set: &mut NodeSet,
    arrivals: &[Slots],
    m: &Machine,
) -> Result<List<Slots>, NoMemory>
    requires machine { IsMachine m.now }
    requires sound { IsSet m.now.states m.now.horizon set.old }
    requires arrivals { (slots : List ℕ) → Contains arrivals.now slots → IsBounded m.now.horizon slots }
    ensures { IfOk result (IsGrowth m.now.states m.now.horizon (Contains arrivals.now) set.old set.new) }
{
    if arrivals.is_empty() {
        return Ok(List::new(Vec::new(alloc)));
    }
    if set.kept.is_some() {
        raise(alloc, set, arrivals, m)
    } else {
        unite(alloc, set, arrivals, m)
    }
}
