//! Laws of the definitions: nothing is computed here.
ghost use Rattle.flow_block.specs.Laws.{BlocksAreOne};

/// A function of an image with facts, on a machine, has one list of blocks, and each of them is told by its start.
pub fn blocks_are_one()
    ensures { BlocksAreOne }
{}
