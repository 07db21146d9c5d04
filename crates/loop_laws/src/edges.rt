//! What the edges of an unfolding are to its loops.

ghost use Rattle.loop_laws.specs.Laws.{BackEdgesAreOfOneLoop, HeadsDiffer, LoopsHaveEdges, UnfoldingsAreOverNodes};

/// The numbers of an unfolding are those of its nodes and edges, and each loop has its head among its members; its back
/// edges lead from members into the head, its entries from elsewhere.
pub fn loops_have_edges()
    ensures nodes { UnfoldingsAreOverNodes }
    ensures loops { LoopsHaveEdges }
{}

/// Two loops differ in their heads, so no edge is a back edge of both.
pub fn back_edges_are_of_one_loop()
    ensures heads { HeadsDiffer }
    ensures back { BackEdgesAreOfOneLoop }
{}
