//! The outermost scope in which a line is kept.

ghost use Rattle.std.specs.Prelude.{◌≡◌, ◌<◌, ◌≤◌, false, length, IfOk};
ghost use Rattle.std.specs.Bool.{Decides};
ghost use Rattle.flow_ctx.specs.declared.scope.Scope.TheVariants as scope;
ghost use Rattle.cache_class.specs.Chains.{IsChain};
ghost use Rattle.cache_class.specs.Classes.{IsKeptIn};
ghost use Rattle.cache_class.specs.Tables.{AreTables, IsAccess, IsFirstKept, IsOutermostScope};

use crate::kept::{is_kept_in_loop, is_kept_in_run};
use crate::tables::{Access, Tables};
use flow_ctx::Scope;
use std::alloc::Global;
use wx_text::NoMemory;

/// The loops that have a node, the outer before the inner.
fn chain_of<'a>(tables: &'a Tables, node: u32) -> &'a [u32]
    requires tables { AreTables tables.now }
    requires node { node < length tables.now.u.now.nodes }
    ensures { IsChain tables.entry.now.u.now tables.entry.now.chains.are_nested node result.now }
{
    tables.chains.loops[node as usize].as_slice()
}

/// Where to look next between two places of a chain: in the middle, where each loop has all nodes of those behind it.
fn middle_of(are_nested: bool, low: usize, high: usize) -> usize
    requires { low < high }
    ensures low { low ≤ result }
    ensures high { result < high }
    ensures first { are_nested ≡ false → result ≡ low }
{
    if are_nested {
        low + (high - low) / 2
    } else {
        low
    }
}

/// Where the first loop stands, of a node's chain, in which the line is kept; the chain's length, if it is kept in none.
///
/// Where each loop has all nodes of those behind it, a line that is kept in one is kept in those behind it too, so it is
/// found by halving.
fn first_kept(
    alloc: Global,
    tables: &Tables,
    chain: &[u32],
    access: Access,
) -> Result<usize, NoMemory>
    requires tables { AreTables tables.now }
    requires chain { IsChain tables.now.u.now tables.now.chains.are_nested access.node chain.now }
    requires access { IsAccess tables.now.flow access.node access.place access.line }
    ensures { IfOk result (IsFirstKept tables.now.shape tables.now.u.now tables.now.flow access.node access.place
        access.line chain.now) }
{
    let mut low = 0;
    let mut high = chain.len();
    'halving: while low < high {
        let middle = middle_of(tables.chains.are_nested, low, high);
        if is_kept_in_loop(alloc, tables, chain[middle], access)? {
            high = middle;
            continue;
        }
        low = middle + 1;
    }
    Ok(low)
}

/// Whether the line is kept in the run, where the first loop of the node's chain keeps it or the chain has none.
///
/// A line that is kept in the run is kept in each loop, so it is not looked for where the first loop does not keep it.
fn is_run_outermost(
    alloc: Global,
    tables: &Tables,
    found: usize,
    access: Access,
) -> Result<bool, NoMemory>
    requires tables { AreTables tables.now }
    requires access { IsAccess tables.now.flow access.node access.place access.line }
    ensures { IfOk result (λ is. Decides is ((found ≡ 0) × IsKeptIn tables.now.shape tables.now.u.now tables.now.flow
        access.node access.place access.line scope.Run)) }
{
    if found != 0 {
        return Ok(false);
    }
    let kept = is_kept_in_run(alloc, tables, access)?;
    Ok(kept)
}

/// The outermost scope in which the line is kept at the access.
pub(crate) fn outermost_scope(
    alloc: Global,
    tables: &Tables,
    access: Access,
) -> Result<Option<Scope>, NoMemory>
    requires tables { AreTables tables.now }
    requires access { IsAccess tables.now.flow access.node access.place access.line }
    ensures { IfOk result (IsOutermostScope tables.now.shape tables.now.u.now tables.now.flow access.node access.place
        access.line) }
{
    let chain = chain_of(tables, access.node);
    let found = first_kept(alloc, tables, chain, access)?;
    let in_run = is_run_outermost(alloc, tables, found, access)?;
    if in_run {
        return Ok(Some(Scope::Run));
    }
    match chain.get(found) {
        Some(number) => Ok(Some(Scope::Loop { number: *number })),
        None => Ok(None),
    }
}
