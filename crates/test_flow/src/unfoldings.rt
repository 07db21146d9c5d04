//! Unfoldings of programs by chains of calls.

use crate::programs::{program_of, push_refusal};
use anyhow::Result;
use flow_ctx::{Call, Edge, ULoop, UNode, UnfoldError, Unfolded, unfold};
use std::alloc::Global;
use std::fmt::Write;
use wx_base::Machine;

/// Appends the unfolding of a case's program, or why there is none.
pub fn push_unfolding(alloc: Global, out: &mut String, case: &str) -> Result<()> {
    match program_of(alloc, case, &Machine::m1(alloc))? {
        Ok(program) => match unfold(alloc, program) {
            Ok(unfolded) => push_whole(out, &unfolded),
            Err(refusal) => push_unfold_error(out, refusal),
        },
        Err(refusal) => push_refusal(out, refusal),
    }
}

/// Appends how many nodes the unfolding of a case's program has, or why there is none.
pub fn push_node_count(alloc: Global, out: &mut String, case: &str) -> Result<()> {
    match program_of(alloc, case, &Machine::m1(alloc))? {
        Ok(program) => match unfold(alloc, program) {
            Ok(unfolded) => push_count(out, unfolded.nodes.as_slice().len()),
            Err(refusal) => push_unfold_error(out, refusal),
        },
        Err(refusal) => push_refusal(out, refusal),
    }
}

fn push_count(out: &mut String, count: usize) -> Result<()> {
    write!(out, " {count} nodes")?;
    Ok(())
}

/// Appends why there is no unfolding.
pub fn push_unfold_error(out: &mut String, refusal: UnfoldError) -> Result<()> {
    write!(out, " {refusal}")?;
    Ok(())
}

fn push_whole(out: &mut String, unfolded: &Unfolded) -> Result<()> {
    let start = unfolded.start;
    write!(out, " start {start}")?;
    for node in unfolded.nodes.as_slice() {
        push_node(out, node)?;
    }
    write!(out, "\n  edges")?;
    for edge in unfolded.edges.as_slice() {
        push_edge(out, edge)?;
    }
    for part in unfolded.loops.as_slice() {
        push_loop(out, part)?;
    }
    Ok(())
}

fn push_node(out: &mut String, node: &UNode) -> Result<()> {
    let (function, block) = (node.function, node.block);
    write!(out, "\n  node")?;
    for call in node.chain.as_slice() {
        push_call(out, call)?;
    }
    write!(out, " function {function} block {block}")?;
    Ok(())
}

fn push_call(out: &mut String, call: &Call) -> Result<()> {
    let (site, entry) = (call.site, call.entry);
    write!(out, " {site:08x}:{entry:08x}")?;
    Ok(())
}

/// A taken edge has two strokes.
fn push_edge(out: &mut String, edge: &Edge) -> Result<()> {
    let (from, to) = (edge.from, edge.to);
    if edge.taken {
        write!(out, " {from}={to}")?;
    } else {
        write!(out, " {from}-{to}")?;
    }
    Ok(())
}

fn push_loop(out: &mut String, part: &ULoop) -> Result<()> {
    let (head, maxcount) = (part.head, part.maxcount);
    write!(out, "\n  loop {head} maxcount {maxcount}")?;
    if let Some(totalcount) = part.totalcount {
        write!(out, " totalcount {totalcount}")?;
    }
    push_numbers(out, " members", part.members.as_slice())?;
    push_numbers(out, " back", part.back.as_slice())?;
    push_numbers(out, " entries", part.entries.as_slice())
}

/// Appends a word and the numbers behind it.
fn push_numbers(out: &mut String, word: &str, numbers: &[u32]) -> Result<()> {
    out.push_str(word)?;
    for number in numbers {
        write!(out, " {number}")?;
    }
    Ok(())
}
