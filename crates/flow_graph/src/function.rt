//! One function with its blocks and loops.

ghost use Rattle.std.specs.Prelude.{◌≡◌, ◌<◌, All, length, slice_index, map, IfOk, IsSome};
ghost use Rattle.wx_base.specs.Facts.{FactsAscend, LoopsAscend};
ghost use Rattle.wx_base.specs.Functions.{fact_of};
ghost use Rattle.wx_base.specs.Machine.{IsMachine};
ghost use Rattle.flow_block.specs.Code.{Subject};
ghost use Rattle.flow_graph.specs.Listing.{IsListed};
ghost use Rattle.flow_graph.specs.Outlines.{IsOutline, IsFunction, AreFunctionsOf, HasBounds};
ghost use Rattle.flow_graph.specs.Outlines.{HaveBounds, IsLoopInfo, AreLoopInfos};

use crate::inputs::Inputs;
use crate::listing::Listing;
use crate::outline::Outline;
use crate::program::{Blocks, Function, LoopInfo, Loops};
use flow_block::{Code, blocks_of, loop_fact};
use graph_loops::{Loop, reach};
use std::alloc::Global;
use wx_base::{Addresses, Facts, NoMemory};

/// The functions of some outlines.
pub(crate) fn functions(
    alloc: Global,
    inputs: &Inputs,
    listing: &Listing,
    outlines: &[Outline],
) -> Result<Vec<Function>, NoMemory>
    requires facts { FactsAscend inputs.now.facts.now }
    requires machine { IsMachine inputs.now.machine.now }
    requires listing { IsListed inputs.now.image.now inputs.now.facts.now inputs.now.start listing.now }
    requires outlines { All (λ o. IsOutline listing.now.ways o × (o.entry < length listing.now.ways)) outlines.now }
    requires bounded { All (HasBounds inputs.now.facts.now listing.now.addresses.items) outlines.now }
    ensures { IfOk result (λ functions. AreFunctionsOf inputs.now.image.now inputs.now.facts.now inputs.now.machine.now
        listing.now.addresses.items outlines.now functions.items) }
{
    let mut functions = Vec::new(alloc);
    for outline in outlines {
        functions.push(function(alloc, inputs, listing, outline)?)?;
    }
    Ok(functions)
}

/// The function of an outline.
fn function(
    alloc: Global,
    inputs: &Inputs,
    listing: &Listing,
    outline: &Outline,
) -> Result<Function, NoMemory>
    ghost of: { Subject }
    requires subject { of ≡ record {
      image = inputs.now.image.now;
      facts = inputs.now.facts.now;
      entry = slice_index listing.now.addresses.items outline.now.entry;
    } }
    requires facts { FactsAscend inputs.now.facts.now }
    requires machine { IsMachine inputs.now.machine.now }
    requires listing { IsListed inputs.now.image.now inputs.now.facts.now inputs.now.start listing.now }
    requires outline { IsOutline listing.now.ways outline.now }
    requires vertex { outline.now.entry < length listing.now.ways }
    requires bounded { HasBounds inputs.now.facts.now listing.now.addresses.items outline.now }
    ensures { IfOk result (IsFunction inputs.now.image.now inputs.now.facts.now inputs.now.machine.now
        (slice_index listing.now.addresses.items outline.now.entry)) }
{
    let entry = listing.addresses[outline.entry];
    let body = reach(alloc, &listing.ways, &[outline.entry], None)?;
    let code = Code {
        addresses: listing.addresses.as_slice(),
        insns: listing.insns.as_slice(),
    };
    let blocks = blocks_of(
        alloc,
        &code,
        body.as_slice(),
        inputs.facts,
        inputs.machine,
        entry,
    )?;
    let loops = loop_infos(
        alloc,
        inputs.facts,
        code.addresses,
        outline.structure.loops.as_slice(),
    )?;
    Ok(Function {
        entry,
        blocks: Blocks::new(blocks),
        loops: Loops::new(loops),
    })
}

/// Loops with their addresses and the bounds of the facts.
fn loop_infos(
    alloc: Global,
    facts: &Facts,
    addresses: &[u32],
    loops: &[Loop],
) -> Result<Vec<LoopInfo>, NoMemory>
    requires facts { LoopsAscend facts.now.loops }
    requires heads { All (λ l. l.head < length addresses.now) loops.now }
    requires members { All (λ l. All (λ a. a < length addresses.now) l.members) loops.now }
    requires bounded { HaveBounds facts.now addresses.now loops.now }
    ensures { IfOk result (λ infos. AreLoopInfos facts.now addresses.now loops.now infos.items) }
{
    let mut infos = Vec::new(alloc);
    for found in loops {
        infos.push(loop_info(alloc, facts, addresses, found)?)?;
    }
    Ok(infos)
}

/// A loop with its addresses and the bounds of the fact on its head.
fn loop_info(
    alloc: Global,
    facts: &Facts,
    addresses: &[u32],
    found: &Loop,
) -> Result<LoopInfo, NoMemory>
    requires facts { LoopsAscend facts.now.loops }
    requires head { found.now.head < length addresses.now }
    requires members { All (λ a. a < length addresses.now) found.now.members }
    requires bounded { IsSome (fact_of facts.now (slice_index addresses.now found.now.head)) }
    ensures { IfOk result (IsLoopInfo facts.now addresses.now found.now) }
{
    let head = addresses[found.head];
    // Each head has a fact where functions are made.
    let fact = loop_fact(facts, head).unwrap();
    Ok(LoopInfo {
        head,
        members: Addresses::new(at_places(alloc, addresses, found.members.as_slice())?),
        maxcount: fact.maxcount,
        totalcount: fact.totalcount,
    })
}

/// The addresses at some places.
fn at_places(alloc: Global, addresses: &[u32], places: &[usize]) -> Result<Vec<u32>, NoMemory>
    requires { All (λ a. a < length addresses.now) places.now }
    ensures { IfOk result (λ list. list.items ≡ map (λ j. slice_index addresses.now j) places.now) }
{
    let mut list = Vec::new(alloc);
    for at in places {
        list.push(addresses[*at])?;
    }
    Ok(list)
}
