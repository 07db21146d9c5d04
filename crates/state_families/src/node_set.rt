use wx_text::List;

/// The slots of a vector: contracts see the list.
pub(crate) type Slots = [u64; 35];

/// What a node has before a round of vectors on their way.
#[derive(Drop)]
pub struct NodeSet {
    /// Its vectors, ascending. A joined node has one.
    pub vectors: List<Slots>,
    /// The first of those that were too many, if the node is joined.
    pub kept: Option<List<Slots>>,
}
