ghost use Rattle.std.specs.Prelude.{◌≡◌, ◌<◌, ◌++◌, [], ◌∷◌, length, map, replicate, slice_set, All, IfOk, OnOk};
ghost use Rattle.cache_kept.specs.Ways.{lists_of, list_at, turned, AreSources, AreWays};

use cache_flow::{Flow, Move};
use std::alloc::{AllocError, Global};
use wx_text::NoMemory;

/// How the nodes of a flow follow one another, node by node.
#[derive(Drop)]
pub struct Ways {
    /// By the number of a node, the sources of the moves to it.
    pub(crate) sources: Vec<Vec<u32>>,
    /// By the number of a node, the targets of the moves from it.
    pub(crate) targets: Vec<Vec<u32>>,
}

impl Ways {
    /// The moves of a flow, node by node. Linear in the flow.
    pub fn new(alloc: Global, flow: &Flow) -> Result<Ways, NoMemory>
        requires from { All (λ step. step.from < length flow.now.nodes) flow.now.moves }
        requires to { All (λ step. step.to < length flow.now.nodes) flow.now.moves }
        ensures { IfOk result (AreWays (length flow.now.nodes) flow.now.moves) }
    {
        let moves = flow.moves.as_slice();
        let sources = sources_of(alloc, flow.nodes.len(), moves)?;
        let back = turned_round(alloc, moves)?;
        let targets = sources_of(alloc, flow.nodes.len(), back.as_slice())?;
        Ok(Ways { sources, targets })
    }
}

/// Moves turned round.
fn turned_round(alloc: Global, moves: &[Move]) -> Result<Vec<Move>, AllocError>
    ensures { IfOk result (λ back. back.items ≡ map turned moves.now) }
{
    moves
        .iter()
        .map(|step| Move {
            from: step.to,
            to: step.from,
        })
        .collect(alloc)
}

/// For each node the sources of the moves to it.
fn sources_of(alloc: Global, count: usize, moves: &[Move]) -> Result<Vec<Vec<u32>>, NoMemory>
    requires { All (λ step. step.to < count) moves.now }
    ensures { IfOk result (λ lists. AreSources count moves.now lists.items) }
{
    let mut lists = empty_lists(alloc, count)?;
    for step in moves {
        push_at(lists.as_mut_slice(), step.to, step.from)?;
    }
    Ok(lists)
}

/// So many lists without elements.
fn empty_lists(alloc: Global, count: usize) -> Result<Vec<Vec<u32>>, NoMemory>
    ensures { IfOk result (λ lists. lists_of lists.items ≡ replicate count []) }
{
    let mut lists = Vec::with_capacity(alloc, count)?;
    for _ in 0..count {
        lists.push(Vec::new(alloc))?;
    }
    Ok(lists)
}

/// Puts a number behind those of the list of a node.
fn push_at(lists: &mut [Vec<u32>], node: u32, number: u32) -> Result<(), NoMemory>
    requires { node < length lists.old }
    ensures { OnOk result (lists_of lists.new
        ≡ slice_set (lists_of lists.old) node (list_at lists.old node ++ number ∷ [])) }
{
    lists[node as usize].push(number)?;
    Ok(())
}
