//! Laws of the definitions: nothing is computed here.
ghost use Rattle.graph_loops.specs.Laws.{BackEdgesComeFromMembers, HeadsAreOnPaths, LoopsAreEnteredAtHeads};
ghost use Rattle.graph_loops.specs.Laws.{WaysInHaveHeads, HeadsAreEntered, SingleEdgesKeepMembership};
ghost use Rattle.graph_loops.specs.Laws.{LoopsAreNested, ClosedWalksLieInLoops, LoopsTellEdges, LoopsTellWays};
ghost use Rattle.graph_loops.specs.Laws.{HeadsCutCycles};

/// In every graph: an edge into a head is a back edge exactly if it comes from a member of the head's loop, and the
/// head is on each path from the entry to a member. Edges and paths from elsewhere into a loop lead to its head, and
/// such an edge there is unless the head is the entry.
pub fn heads_are_entries()
    ensures back { BackEdgesComeFromMembers }
    ensures paths { HeadsAreOnPaths }
    ensures edges { LoopsAreEnteredAtHeads }
    ensures ways { WaysInHaveHeads }
    ensures outside { HeadsAreEntered }
{}

/// In every graph: where a vertex leads to one other alone, and that is not the head, both are members of the head's
/// loop or neither is. So membership is the same all along a block.
pub fn single_edges_keep_membership()
    ensures { SingleEdgesKeepMembership }
{}

/// In every graph two loops that share a vertex are nested.
pub fn loops_are_nested()
    ensures { LoopsAreNested }
{}

/// Where no vertex is on a cycle of forward edges, each closed walk that is reached lies in the loop of a head on it,
/// if it can be told which edges are back edges: a list of the loops tells it.
pub fn closed_walks_lie_in_loops()
    ensures walks { ClosedWalksLieInLoops }
    ensures lists { LoopsTellEdges }
    ensures ways { LoopsTellWays }
{}

/// Where no vertex is on a cycle of forward edges, each cycle that is reached leads through a head.
pub fn heads_cut_cycles()
    ensures { HeadsCutCycles }
{}
