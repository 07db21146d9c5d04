ghost use Rattle.flow_ctx.specs.Nodes.{HasBlock, IsBlockOf};

use crate::unfolded::Unfolded;
use flow_graph::Block;

impl Unfolded {
    /// The block of the node with a number, which is in its function whatever calls led there.
    pub fn block(&self, node: u32) -> &Block
        requires { HasBlock self.now node }
        ensures { IsBlockOf self.now node result.now }
    {
        let nodes = self.nodes.as_slice();
        let place = &nodes[node as usize];
        let function = &self.program.functions.as_slice()[place.function as usize];
        &function.blocks.as_slice()[place.block as usize]
    }
}
