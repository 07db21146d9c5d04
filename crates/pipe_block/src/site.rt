use flow_ctx::Unfolded;
use wx_base::Machine;

/// A node of an unfolding, on a machine.
#[derive(Clone, Copy)]
pub struct Site<'u, 'm> {
    pub unfolded: &'u Unfolded,
    /// The number of the node.
    pub node: u32,
    pub machine: &'m Machine,
}
