/// An event of a block that is a first miss.
#[derive(Clone, Copy)]
pub(crate) struct Miss {
    /// Its number in the block.
    pub event: u32,
    /// The position of its group.
    pub group: usize,
}
