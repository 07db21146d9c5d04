use wx_text::List;

/// A move from one node to another.
#[derive(Clone, Copy, Debug, PartialEq, Eq)]
pub struct Move {
    /// The number of the node that is left.
    pub from: u32,
    /// The number of the node that is come to.
    pub to: u32,
}

/// Numbers of lines: contracts see the list.
pub type Lines = List<u32>;

/// The lines that each node accesses, in order: contracts see the lists.
pub type Accesses = List<Lines>;

/// Moves: contracts see the list.
pub type Moves = List<Move>;

/// What a program does to a cache: the lines that each of its nodes accesses, and how nodes follow one another.
#[derive(Debug, Drop)]
pub struct Flow {
    /// The number of the node where runs start.
    pub start: u32,
    /// The lines that each node accesses.
    pub nodes: Accesses,
    /// The moves from node to node.
    pub moves: Moves,
    /// All lines, ascending.
    pub lines: Lines,
}
