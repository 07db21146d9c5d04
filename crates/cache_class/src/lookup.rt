ghost use Rattle.std.specs.Prelude.{◌≡◌, ◌<◌, length, slice_get, Some};
ghost use Rattle.flow_ctx.specs.declared.unfolded.UNode.{UNode};
ghost use Rattle.flow_ctx.specs.Unfolding.{IsUnfolding};
ghost use Rattle.cache_class.specs.Accesses.{slots_of};

use flow_block::Slot;
use flow_ctx::{Unfolded, nodes_have_blocks};

/// The events of the node's block.
pub(crate) fn slots_at(u: &Unfolded, node: u32) -> &[Slot]
    requires unfolding { IsUnfolding u.now.program u.now }
    requires node { node < length u.now.nodes }
    ensures { (n : UNode) → slice_get u.now.nodes node ≡ Some n → result.now ≡ slots_of u.now.program n }
{
    nodes_have_blocks();
    u.block(node).slots.as_slice()
}
