//! Laws of the definitions: nothing is computed here.
ghost use Rattle.flow_ctx.specs.Laws.{NodesHaveBlocks, UnfoldingIsOne};

/// A program that was built has at most one unfolding.
pub fn unfoldings_are_one()
    ensures { UnfoldingIsOne }
{}

/// Each node of an unfolding has a block.
pub fn nodes_have_blocks()
    ensures { NodesHaveBlocks }
{}
