//! Where functions and blocks of a program begin.

ghost use Rattle.std.specs.Prelude.{◌≡◌, ◌≤◌, ℕ, length, slice_get, Some, MatchOption};
ghost use Rattle.flow_block.specs.Blocks.{most_insns};
ghost use Rattle.flow_ctx.specs.declared.unfolded.UNode.{UNode};
ghost use Rattle.flow_graph.specs.declared.program.Function.{Function as FunctionOf};
ghost use Rattle.flow_ctx.specs.Nodes.{BeginsAt, entry_after, last_address};
ghost use Rattle.flow_ctx.specs.Targets.{HasPlace, IsBlockNumber, IsFunctionInOrder, IsFunctionNumber};
ghost use Rattle.flow_ctx.specs.Targets.{IsInOrder, node_of};

use crate::place::Place;
use crate::unfolded::Call;
use flow_graph::{Block, Function, Program};

/// The position of the function with an entry.
fn function_at(program: &Program, entry: u32) -> Option<u32>
    requires { IsInOrder program.now }
    ensures { MatchOption result ((n : ℕ) → IsFunctionNumber program.now entry n → ⊥)
        (IsFunctionNumber program.now entry) }
{
    let functions = program.functions.as_slice();
    match functions.binary_search_by_key(&entry, |function| function.entry) {
        Ok(at) => Some(at as u32),
        Err(_) => None,
    }
}

/// The position of the block that begins at an address.
fn block_at(function: &Function, start: u32) -> Option<u32>
    requires { IsFunctionInOrder function.now }
    ensures { MatchOption result ((n : ℕ) → IsBlockNumber function.now start n → ⊥)
        (IsBlockNumber function.now start) }
{
    let blocks = function.blocks.as_slice();
    match blocks.binary_search_by_key(&start, |block| block.start) {
        Ok(at) => Some(at as u32),
        Err(_) => None,
    }
}

/// The entry of the function that the last of some calls called, that of the start if there is none.
fn entry_of(program: &Program, chain: &[Call]) -> u32
    ensures { result ≡ entry_after program.now.start chain.now }
{
    match chain.last() {
        Some(call) => call.entry,
        None => program.start,
    }
}

/// The place of the block that begins at an address in a chain of calls.
pub(crate) fn place_at(program: &Program, chain: Vec<Call>, start: u32) -> Option<Place>
    requires { IsInOrder program.now }
    ensures { MatchOption result ((node : UNode) → BeginsAt program.now node chain.items start → ⊥)
        (λ place. BeginsAt program.now (node_of place) chain.items start) }
{
    let Some(function) = function_at(program, entry_of(program, chain.as_slice())) else {
        return None;
    };
    let blocks = &program.functions.as_slice()[function as usize];
    let Some(block) = block_at(blocks, start) else {
        return None;
    };
    Some(Place {
        chain,
        function,
        block,
    })
}

/// The function of a place.
pub(crate) fn function_of<'a>(program: &'a Program, place: &Place) -> &'a Function
    requires { HasPlace program.now place.now }
    ensures { slice_get program.now.functions place.now.function ≡ Some result.now }
{
    &program.functions.as_slice()[place.function as usize]
}

/// The block of a place.
pub(crate) fn block_of<'a>(program: &'a Program, place: &Place) -> &'a Block
    requires { HasPlace program.now place.now }
    ensures { (function : FunctionOf) → slice_get program.now.functions place.now.function ≡ Some function
        → slice_get function.blocks place.now.block ≡ Some result.now }
{
    &function_of(program, place).blocks.as_slice()[place.block as usize]
}

/// The address of a block's last instruction.
pub(crate) fn site_of(block: &Block) -> u32
    requires { length block.now.insns ≤ most_insns }
    ensures { result ≡ last_address block.now }
{
    let count = block.insns.len() as u32;
    match count.checked_sub(1) {
        Some(before) => block.start.wrapping_add(4 * before),
        None => block.start,
    }
}
