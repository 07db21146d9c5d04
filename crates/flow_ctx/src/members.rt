//! The members of loops, and the edges into their heads.

ghost use Rattle.std.specs.Prelude.{◌≡◌, ◌≤◌, length, slice_get, Some, None, All, Contains};
ghost use Rattle.std.specs.Prelude.{Decides, IfOk, IfSome, MatchOption};
ghost use Rattle.wx_base.specs.Facts.{AreAscending};
ghost use Rattle.flow_block.specs.declared.block.Block.{Block as BlockOf};
ghost use Rattle.flow_graph.specs.declared.program.Function.{Function as FunctionOf};
ghost use Rattle.flow_graph.specs.declared.program.LoopInfo.{LoopInfo as LoopInfoOf};
ghost use Rattle.flow_ctx.specs.declared.unfolded.Call.{Call as CallOf};
ghost use Rattle.flow_ctx.specs.Chosen.{AreChosen, LeadsInto, LeadsIntoAt, most_edges};
ghost use Rattle.flow_ctx.specs.Found.{nodes_of};
ghost use Rattle.flow_ctx.specs.Nodes.{IsBlockAt};
ghost use Rattle.flow_ctx.specs.Targets.{HasPlace, IsInOrder, node_of};
ghost use Rattle.flow_ctx.specs.Unfolding.{IsHeadOf, IsMember, IsMemberNumber, most_nodes};

use crate::place::Place;
use crate::search::{block_of, function_of};
use crate::unfolded::Edge;
use flow_graph::{LoopInfo, Program};
use std::alloc::Global;
use wx_base::NoMemory;

/// The loop at whose head the block of a place begins, if it does at one.
pub(crate) fn info_at<'a>(program: &'a Program, place: &Place) -> Option<&'a LoopInfo>
    requires order { IsInOrder program.now }
    requires place { HasPlace program.now place.now }
    ensures info { MatchOption result ((info : LoopInfoOf) → IsHeadOf program.now (node_of place.now) info → ⊥)
        (λ info. IsHeadOf program.now (node_of place.now) info.now) }
    ensures ascending { IfSome result (λ info. AreAscending info.now.members) }
{
    let start = block_of(program, place).start;
    let loops = function_of(program, place).loops.as_slice();
    match loops.binary_search_by_key(&start, |info| info.head) {
        Ok(at) => Some(&loops[at]),
        Err(_) => None,
    }
}

/// Whether a number is listed.
fn is_listed(numbers: &[u32], number: u32) -> bool
    requires { AreAscending numbers.now }
    ensures { Decides result (Contains numbers.now number) }
{
    numbers.binary_search(&number).is_ok()
}

/// The address by which a node belongs to loops of the function that so many calls led to: that of the call that leads
/// on, or that of its own block.
fn address_at(program: &Program, place: &Place, depth: usize) -> u32
    requires { HasPlace program.now place.now }
    ensures call { (call : CallOf) → slice_get place.now.chain.items depth ≡ Some call → result ≡ call.site }
    ensures own { slice_get place.now.chain.items depth ≡ None → (function : FunctionOf) (block : BlockOf)
        → IsBlockAt program.now (node_of place.now) function block → result ≡ block.start }
{
    match place.chain.as_slice().get(depth) {
        Some(call) => call.site,
        None => block_of(program, place).start,
    }
}

/// Whether a node belongs to the loop with a head's node.
fn is_member(program: &Program, head: &Place, info: &LoopInfo, place: &Place) -> bool
    requires place { HasPlace program.now place.now }
    requires ascending { AreAscending info.now.members }
    ensures { Decides result (IsMember program.now (node_of head.now) info.now (node_of place.now)) }
{
    let callers = head.chain.as_slice();
    if !place.chain.as_slice().starts_with(callers) {
        return false;
    }
    let address = address_at(program, place, callers.len());
    is_listed(info.members.as_slice(), address)
}

/// The numbers of the members of the loop with a head's node.
pub(crate) fn members_of(
    alloc: Global,
    program: &Program,
    places: &[Place],
    head: &Place,
    info: &LoopInfo,
) -> Result<Vec<u32>, NoMemory>
    requires few { length places.now ≤ most_nodes }
    requires places { All (λ p. HasPlace program.now p) places.now }
    requires ascending { AreAscending info.now.members }
    ensures { IfOk result (λ list. AreChosen (IsMemberNumber program.now (nodes_of places.now) (node_of head.now)
        info.now) list.items) }
{
    let mut list = Vec::new(alloc);
    for number in 0..places.len() {
        if is_member(program, head, info, &places[number]) {
            list.push(number as u32)?;
        }
    }
    Ok(list)
}

/// Whether an edge leads into a head, from a member or from elsewhere.
fn leads_into(edge: &Edge, head: u32, members: &[u32], inside: bool) -> bool
    requires { AreAscending members.now }
    ensures { Decides result (LeadsInto head members.now inside edge.now) }
{
    edge.to == head && is_listed(members, edge.from) == inside
}

/// The numbers of the edges into a head, from members or from elsewhere.
pub(crate) fn edges_into(
    alloc: Global,
    edges: &[Edge],
    head: u32,
    members: &[u32],
    inside: bool,
) -> Result<Vec<u32>, NoMemory>
    requires few { length edges.now ≤ most_edges }
    requires ascending { AreAscending members.now }
    ensures { IfOk result (λ list. AreChosen (LeadsIntoAt edges.now head members.now inside) list.items) }
{
    let mut list = Vec::new(alloc);
    for number in 0..edges.len() {
        if leads_into(&edges[number], head, members, inside) {
            list.push(number as u32)?;
        }
    }
    Ok(list)
}
