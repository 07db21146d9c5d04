//! Where a node leads.

ghost use Rattle.std.specs.Prelude.{◌≡◌, [], ◌∷◌, ◌++◌, OnOk, IfOk};
ghost use Rattle.flow_ctx.specs.Targets.{Adds, AreTargets, At, AtCallee, AtNext, AtReturn, AtSome, HasPlace, IsInOrder};
ghost use Rattle.flow_ctx.specs.Targets.{node_of};

use crate::place::Place;
use crate::search::{block_of, place_at, site_of};
use crate::target::Target;
use crate::unfolded::Call;
use flow_graph::{Block, Program};
use std::alloc::Global;
use wx_base::NoMemory;

/// Adds the block that begins at an address in a chain of calls, if there is one.
fn push_place(
    program: &Program,
    chain: Vec<Call>,
    start: u32,
    taken: bool,
    targets: &mut Vec<Target>,
) -> Result<(), NoMemory>
    requires { IsInOrder program.now }
    ensures { OnOk result (Adds (At program.now chain.items start taken) targets.old.items targets.new.items) }
{
    if let Some(place) = place_at(program, chain, start) {
        targets.push(Target { place, taken })?;
    }
    Ok(())
}

/// Adds the block behind one that is left without a jump.
fn push_next(
    alloc: Global,
    program: &Program,
    chain: &[Call],
    block: &Block,
    targets: &mut Vec<Target>,
) -> Result<(), NoMemory>
    requires { IsInOrder program.now }
    ensures { OnOk result (Adds (AtNext program.now chain.now block.now) targets.old.items targets.new.items) }
{
    if let Some(next) = block.next {
        push_place(
            program,
            Vec::from_slice(alloc, chain)?,
            next,
            false,
            targets,
        )?;
    }
    Ok(())
}

/// Adds the blocks that are jumped to.
fn push_jumps(
    alloc: Global,
    program: &Program,
    chain: &[Call],
    jumps: &[u32],
    targets: &mut Vec<Target>,
) -> Result<(), NoMemory>
    requires { IsInOrder program.now }
    ensures { OnOk result (Adds (AtSome program.now chain.now jumps.now) targets.old.items targets.new.items) }
{
    for jump in jumps {
        push_place(
            program,
            Vec::from_slice(alloc, chain)?,
            *jump,
            true,
            targets,
        )?;
    }
    Ok(())
}

/// A chain with one more call behind it.
fn longer(alloc: Global, chain: &[Call], call: Call) -> Result<Vec<Call>, NoMemory>
    ensures { IfOk result (λ longer. longer.items ≡ chain.now ++ call ∷ []) }
{
    let mut longer = Vec::with_capacity(alloc, chain.len() + 1)?;
    longer.extend_from_slice(chain)?;
    longer.push(call)?;
    Ok(longer)
}

/// Adds the first blocks of the functions that are called from a site.
fn push_calls(
    alloc: Global,
    program: &Program,
    chain: &[Call],
    site: u32,
    entries: &[u32],
    targets: &mut Vec<Target>,
) -> Result<(), NoMemory>
    requires { IsInOrder program.now }
    ensures { OnOk result (Adds (AtCallee program.now chain.now site entries.now) targets.old.items
        targets.new.items) }
{
    for entry in entries {
        let call = Call {
            site,
            entry: *entry,
        };
        push_place(program, longer(alloc, chain, call)?, *entry, true, targets)?;
    }
    Ok(())
}

/// Adds the block behind the last call of a chain, if a block returns.
fn push_return(
    alloc: Global,
    program: &Program,
    chain: &[Call],
    block: &Block,
    targets: &mut Vec<Target>,
) -> Result<(), NoMemory>
    requires { IsInOrder program.now }
    ensures { OnOk result (Adds (AtReturn program.now chain.now block.now) targets.old.items targets.new.items) }
{
    if !block.ret {
        return Ok(());
    }
    if let Some((last, callers)) = chain.split_last() {
        let callers = Vec::from_slice(alloc, callers)?;
        push_place(program, callers, last.site.wrapping_add(4), true, targets)?;
    }
    Ok(())
}

/// All that a node leads to. For each a search in the functions and in the blocks, and a copy of the chain.
pub(crate) fn targets_of(
    alloc: Global,
    program: &Program,
    from: &Place,
) -> Result<Vec<Target>, NoMemory>
    requires order { IsInOrder program.now }
    requires place { HasPlace program.now from.now }
    ensures { IfOk result (λ targets. AreTargets program.now (node_of from.now) targets.items) }
{
    let block = block_of(program, from);
    let chain = from.chain.as_slice();
    let site = site_of(block);
    let mut targets = Vec::new(alloc);
    push_next(alloc, program, chain, block, &mut targets)?;
    push_jumps(alloc, program, chain, block.jumps.as_slice(), &mut targets)?;
    push_calls(
        alloc,
        program,
        chain,
        site,
        block.calls.as_slice(),
        &mut targets,
    )?;
    push_return(alloc, program, chain, block, &mut targets)?;
    Ok(targets)
}
