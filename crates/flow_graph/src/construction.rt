//! The program of an image: from what is reached to functions with blocks and loops.

ghost use Rattle.std.specs.Prelude.{◌≡◌, ◌<◌, ◌⊎◌, All, Decides, length, map, sum, OnOk, IfOk, IfErr};
ghost use Rattle.wx_base.specs.Facts.{FactsAscend};
ghost use Rattle.wx_base.specs.Machine.{IsMachine};
ghost use Rattle.flow_graph.specs.declared.error.FlowError.TheVariants as refusal;
ghost use Rattle.flow_graph.specs.Listing.{IsListed, IsStart};
ghost use Rattle.flow_graph.specs.Outlines.{AreAllOutlines, HasBounds};
ghost use Rattle.flow_graph.specs.Program.{IsProgram};
ghost use Rattle.flow_graph.specs.Refusals.{IsCause, IsClean, IsFirst, IsSoundProgram};
ghost use Rattle.graph_loops.specs.Graph.{lists_of};

use crate::early_refusals::refuse_early;
use crate::entries::{entries, recursive_call};
use crate::error::FlowError;
use crate::explore::explore;
use crate::function::functions;
use crate::inputs::Inputs;
use crate::listing::{Listing, list_sites};
use crate::outline::{Outline, least_on_cycle, least_unbounded, outlines};
use crate::program::{Function, Functions, Program};
use flow_block::{blocks_are_one, place};
use std::alloc::Global;
use wx_base::{Facts, Image, Machine};

/// The greatest number of blocks of a program.
const MOST_BLOCKS: usize = 16_384;

/// The program of an image with facts on its flow, whose runs start at an entry.
///
/// The refusals are tried in the order of [`FlowError`], each over all that is reached; of one kind that with the
/// least address is given, for `BadTarget` the least pair. Facts on other addresses do not matter. With n
/// instructions that are reached and f functions it takes n log n time to find and to sort them, and f times n to
/// look for recursion; and for each function as often n as it has instructions to which several ways lead.
pub fn build(
    alloc: Global,
    image: &Image,
    facts: &Facts,
    entry: u32,
    machine: &Machine,
) -> Result<Program, FlowError>
    requires facts { FactsAscend facts.now }
    requires machine { IsMachine machine.now }
    ensures sound { IfOk result (IsSoundProgram image.now facts.now entry machine.now) }
    ensures program { IfOk result (λ p. IsProgram image.now facts.now entry machine.now p) }
    ensures clean { OnOk result ((cause : FlowError) → IsCause image.now facts.now entry machine.now cause → ⊥) }
    ensures refused { IfErr result (λ e. (e ≡ refusal.NoMemory) ⊎ IsFirst image.now facts.now entry machine.now e) }
{
    let inputs = Inputs {
        image,
        facts,
        start: entry,
        machine,
    };
    let listing = reached_listing(alloc, &inputs)?;
    let marks = function_entries(alloc, &inputs, &listing)?;
    let outlines = function_outlines(alloc, &inputs, &listing, marks.as_slice())?;
    program(alloc, &inputs, &listing, outlines.as_slice())
}

/// The instructions that are reached, unless one of the refusals is due that need no functions.
fn reached_listing(alloc: Global, inputs: &Inputs) -> Result<Listing, FlowError>
    requires { FactsAscend inputs.now.facts.now }
    ensures listing { IfOk result (IsListed inputs.now.image.now inputs.now.facts.now inputs.now.start) }
    ensures clean { OnOk result (IsClean inputs.now.image.now inputs.now.facts.now inputs.now.start
        inputs.now.machine.now 4) }
    ensures refused { IfErr result (λ e. (e ≡ refusal.NoMemory)
        ⊎ IsFirst inputs.now.image.now inputs.now.facts.now inputs.now.start inputs.now.machine.now e) }
{
    let sites = explore(alloc, inputs.image, inputs.facts, inputs.start)?;
    refuse_early(inputs, sites.as_slice())?;
    Ok(list_sites(alloc, sites.as_slice())?)
}

/// Marks at the numbers of the functions' entries, unless a call is recursive, of which the least is refused.
fn function_entries(
    alloc: Global,
    inputs: &Inputs,
    listing: &Listing,
) -> Result<Vec<bool>, FlowError>
    requires listing { IsListed inputs.now.image.now inputs.now.facts.now inputs.now.start listing.now }
    requires clean { IsClean inputs.now.image.now inputs.now.facts.now inputs.now.start
        inputs.now.machine.now 4 }
    ensures entries { IfOk result (λ marks. IsStart listing.now.addresses.items (lists_of listing.now.calls.items)
        inputs.now.start marks.items) }
    ensures clean { OnOk result (IsClean inputs.now.image.now inputs.now.facts.now inputs.now.start
        inputs.now.machine.now 5) }
    ensures refused { IfErr result (λ e. (e ≡ refusal.NoMemory)
        ⊎ IsFirst inputs.now.image.now inputs.now.facts.now inputs.now.start inputs.now.machine.now e) }
{
    let calls = listing.calls.as_slice();
    let start = place(listing.addresses.as_slice(), inputs.start);
    let marks = entries(alloc, calls, start)?;
    match recursive_call(alloc, &listing.ways, calls, marks.as_slice())? {
        Some(at) => Err(FlowError::Recursion {
            addr: listing.addresses[at],
        }),
        None => Ok(marks),
    }
}

/// The outlines of the functions that begin at the marks, unless some address is on a cycle without back edges or
/// some head has no bound; of each the least is refused.
fn function_outlines(
    alloc: Global,
    inputs: &Inputs,
    listing: &Listing,
    marks: &[bool],
) -> Result<Vec<Outline>, FlowError>
    requires facts { FactsAscend inputs.now.facts.now }
    requires listing { IsListed inputs.now.image.now inputs.now.facts.now inputs.now.start listing.now }
    requires marks { IsStart listing.now.addresses.items (lists_of listing.now.calls.items) inputs.now.start marks.now }
    requires clean { IsClean inputs.now.image.now inputs.now.facts.now inputs.now.start
        inputs.now.machine.now 5 }
    ensures outlines { IfOk result (λ list. AreAllOutlines inputs.now.start listing.now list.items) }
    ensures bounded { IfOk result (λ list. All (HasBounds inputs.now.facts.now listing.now.addresses.items)
        list.items) }
    ensures clean { OnOk result (IsClean inputs.now.image.now inputs.now.facts.now inputs.now.start
        inputs.now.machine.now 7) }
    ensures refused { IfErr result (λ e. (e ≡ refusal.NoMemory)
        ⊎ IsFirst inputs.now.image.now inputs.now.facts.now inputs.now.start inputs.now.machine.now e) }
{
    let list = outlines(alloc, &listing.ways, marks)?;
    let outlines = list.as_slice();
    if let Some(at) = least_on_cycle(outlines) {
        return Err(FlowError::Irreducible {
            addr: listing.addresses[at],
        });
    }
    match least_unbounded(inputs.facts, listing.addresses.as_slice(), outlines) {
        Some(at) => Err(FlowError::LoopNoBound {
            addr: listing.addresses[at],
        }),
        None => Ok(list),
    }
}

/// The program of these outlines, unless its functions have too many blocks.
fn program(
    alloc: Global,
    inputs: &Inputs,
    listing: &Listing,
    outlines: &[Outline],
) -> Result<Program, FlowError>
    requires facts { FactsAscend inputs.now.facts.now }
    requires machine { IsMachine inputs.now.machine.now }
    requires listing { IsListed inputs.now.image.now inputs.now.facts.now inputs.now.start listing.now }
    requires outlines { AreAllOutlines inputs.now.start listing.now outlines.now }
    requires bounded { All (HasBounds inputs.now.facts.now listing.now.addresses.items) outlines.now }
    requires clean { IsClean inputs.now.image.now inputs.now.facts.now inputs.now.start
        inputs.now.machine.now 7 }
    ensures program { IfOk result (IsProgram inputs.now.image.now inputs.now.facts.now inputs.now.start
        inputs.now.machine.now) }
    ensures clean { OnOk result (IsClean inputs.now.image.now inputs.now.facts.now inputs.now.start
        inputs.now.machine.now 8) }
    ensures refused { IfErr result (λ e. (e ≡ refusal.NoMemory)
        ⊎ IsFirst inputs.now.image.now inputs.now.facts.now inputs.now.start inputs.now.machine.now e) }
{
    let functions = functions(alloc, inputs, listing, outlines)?;
    // No other program has more blocks.
    blocks_are_one();
    if has_more_blocks(functions.as_slice(), MOST_BLOCKS) {
        return Err(FlowError::TooManyBlocks);
    }
    Ok(Program {
        start: inputs.start,
        functions: Functions::new(functions),
    })
}

/// Whether functions have more blocks together than so many.
fn has_more_blocks(functions: &[Function], most: usize) -> bool
    ensures { Decides result (most < sum (map (λ f. length f.blocks) functions.now)) }
{
    let mut left = most;
    for function in functions {
        let count = function.blocks.as_slice().len();
        if count > left {
            return true;
        }
        left -= count;
    }
    false
}
