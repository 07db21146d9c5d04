use pipe_time::Vector;
use wx_text::List;

/// Different vectors, ascending as lists of their slots: contracts see the list.
pub type Vectors = List<Vector>;

/// A node whose vectors became too many, so that one vector that covers them all stands for them.
#[derive(Debug, Drop)]
pub struct Joined {
    /// The number of the node.
    pub node: u32,
    /// The first of the vectors that it had when they became too many: one more than the machine's `states`.
    pub kept: Vectors,
}

/// The vectors of all nodes.
#[derive(Debug, Drop)]
pub struct FamilySet {
    /// For each node its vectors.
    pub vectors: List<Vectors>,
    /// The joined nodes, by their numbers.
    pub joined: List<Joined>,
}
