//! The loops that have each node, in the order in which they lie within one another.

ghost use Rattle.std.specs.Prelude.{◌≡◌, ◌<◌, ◌≤◌, ◌∷◌, [], ℕ, true, length, IfOk, OnOk, AllPairs, Contains};
ghost use Rattle.std.specs.Bool.{Decides};
ghost use Rattle.wx_base.specs.Facts.{AreAscending};
ghost use Rattle.flow_ctx.specs.Unfolding.{IsUnfolding, most_nodes};
ghost use Rattle.cache_class.specs.Chains.{last_at, AreAlike, AreChains, AreChainsOf, AreEmpty};
ghost use Rattle.cache_class.specs.Chains.{AreListed, AreOrdered, HasWithin, IsPushed};

use flow_ctx::Unfolded;
use std::alloc::Global;
use wx_text::NoMemory;

/// For each node the loops that have it, those with more nodes first.
#[derive(Drop)]
pub(crate) struct Chains {
    /// By the number of the node, the numbers of the loops.
    pub loops: Vec<Vec<u32>>,
    /// Whether of the loops of each node each has all nodes of those behind it.
    pub are_nested: bool,
}

/// Appends the numbers of the loops with so many nodes.
fn push_of_size(order: &mut Vec<u32>, u: &Unfolded, size: usize) -> Result<(), NoMemory>
    requires unfolding { IsUnfolding u.now.program u.now }
    requires few { length u.now.nodes ≤ most_nodes }
    requires larger { AreListed u.now size 0 order.old.items }
    ensures { OnOk result (AreListed u.now size (length u.now.loops) order.new.items) }
{
    let loops = u.loops.as_slice();
    for number in 0..loops.len() {
        if loops[number].members.len() != size {
            continue;
        }
        order.push(number as u32)?;
    }
    Ok(())
}

/// The numbers of all loops, those with more nodes first. Takes time in the nodes for each loop.
fn outside_in(alloc: Global, u: &Unfolded) -> Result<Vec<u32>, NoMemory>
    requires unfolding { IsUnfolding u.now.program u.now }
    requires few { length u.now.nodes ≤ most_nodes }
    ensures { IfOk result (λ order. AreOrdered u.now order.items) }
{
    let most = u.nodes.len();
    let mut order = Vec::with_capacity(alloc, u.loops.len())?;
    for fewer in 0..most + 1 {
        push_of_size(&mut order, u, most - fewer)?;
    }
    Ok(order)
}

/// The last loop in the chain of a node.
fn last_loop(chains: &[Vec<u32>], node: u32) -> Option<u32>
    requires { node < length chains.now }
    ensures { result ≡ last_at chains.now node }
{
    chains[node as usize].as_slice().last().copied()
}

/// Whether two numbers are both there and the same, or both not there.
fn are_same(a: Option<u32>, b: Option<u32>) -> bool
    ensures { Decides result (a ≡ b) }
{
    match (a, b) {
        (Some(a), Some(b)) => a == b,
        (None, None) => true,
        (Some(_), None) | (None, Some(_)) => false,
    }
}

/// Whether the chains of some nodes end in the same loop.
fn end_alike(chains: &[Vec<u32>], nodes: &[u32]) -> bool
    requires { (node : ℕ) → Contains nodes.now node → node < length chains.now }
    ensures { result ≡ true → AreAlike chains.now nodes.now }
{
    for i in 1..nodes.len() {
        let last = last_loop(chains, nodes[i - 1]);
        if !are_same(last_loop(chains, nodes[i]), last) {
            return false;
        }
    }
    true
}

/// Whether loops that were nested are so with one more, which has these nodes.
fn stay_nested(are_nested: bool, chains: &[Vec<u32>], nodes: &[u32]) -> bool
    requires { (node : ℕ) → Contains nodes.now node → node < length chains.now }
    ensures before { result ≡ true → are_nested ≡ true }
    ensures alike { result ≡ true → AreAlike chains.now nodes.now }
{
    if are_nested {
        end_alike(chains, nodes)
    } else {
        false
    }
}

/// Appends a loop to the chain of a node.
fn push_at(chains: &mut [Vec<u32>], node: u32, number: u32) -> Result<(), NoMemory>
    requires { node < length chains.old }
    ensures { OnOk result (IsPushed (node ∷ []) number chains.old chains.new) }
{
    chains[node as usize].push(number)?;
    Ok(())
}

/// Appends a loop to the chain of each of some nodes.
fn push_to_each(chains: &mut [Vec<u32>], nodes: &[u32], number: u32) -> Result<(), NoMemory>
    requires nodes { (node : ℕ) → Contains nodes.now node → node < length chains.old }
    requires ascending { AreAscending nodes.now }
    ensures { OnOk result (IsPushed nodes.now number chains.old chains.new) }
{
    for node in nodes {
        push_at(chains, *node, number)?;
    }
    Ok(())
}

/// So many chains without loops.
fn no_chains(alloc: Global, count: usize) -> Result<Vec<Vec<u32>>, NoMemory>
    ensures { IfOk result (λ chains. AreEmpty count chains.items) }
{
    let mut chains = Vec::with_capacity(alloc, count)?;
    for node in 0..count {
        chains.push(Vec::new(alloc))?;
    }
    Ok(chains)
}

/// Appends the loops of an order to the chains of their nodes; whether each has all nodes of those behind it that share
/// one with it.
fn push_all(chains: &mut [Vec<u32>], u: &Unfolded, order: &[u32]) -> Result<bool, NoMemory>
    requires unfolding { IsUnfolding u.now.program u.now }
    requires order { (number : ℕ) → Contains order.now number → number < length u.now.loops }
    requires chains { AreChains u.now [] chains.old }
    ensures chains { OnOk result (AreChains u.now order.now chains.new) }
    ensures nested { IfOk result (λ nested. nested ≡ true → AllPairs (HasWithin u.now) order.now) }
{
    let mut are_nested = true;
    for number in order {
        let members = u.loops.as_slice()[*number as usize].members.as_slice();
        are_nested = stay_nested(are_nested, chains, members);
        push_to_each(chains, members, *number)?;
    }
    Ok(are_nested)
}

/// For each node the loops that have it.
pub(crate) fn chains_of(alloc: Global, u: &Unfolded) -> Result<Chains, NoMemory>
    requires unfolding { IsUnfolding u.now.program u.now }
    requires few { length u.now.nodes ≤ most_nodes }
    ensures { IfOk result (AreChainsOf u.now) }
{
    let order = outside_in(alloc, u)?;
    let mut loops = no_chains(alloc, u.nodes.len())?;
    let are_nested = push_all(loops.as_mut_slice(), u, order.as_slice())?;
    Ok(Chains { loops, are_nested })
}
