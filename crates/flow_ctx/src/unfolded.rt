use flow_graph::Program;
use wx_text::List;

/// An open call.
#[derive(Clone, Copy, Debug, PartialEq, Eq, PartialOrd, Ord, Hash)]
pub struct Call {
    /// The address of the instruction that called.
    pub site: u32,
    /// The address of the function that was called: that of its first instruction.
    pub entry: u32,
}

/// Open calls, the oldest first: contracts see the list.
pub type Chain = List<Call>;

/// A block of a function that was called by a chain of calls.
#[derive(Debug, Drop)]
pub struct UNode {
    /// The calls that are open.
    pub chain: Chain,
    /// The function that the last of them called, or that in which runs start: its position in the program.
    pub function: u32,
    /// The block's position in the function.
    pub block: u32,
}

/// A move from the end of one block to the beginning of another.
#[derive(Clone, Copy, Debug, PartialEq, Eq, PartialOrd, Ord, Hash)]
pub struct Edge {
    /// The number of the node that is left.
    pub from: u32,
    /// The number of the node that is come to.
    pub to: u32,
    /// Whether the block's last instruction jumps, calls or returns along the edge; else the run goes on behind it.
    pub taken: bool,
}

/// Numbers of nodes or edges, ascending: contracts see the list.
pub type Numbers = List<u32>;

/// A loop of a function that was called by a chain of calls, with all that is called in it.
#[derive(Debug, Drop)]
pub struct ULoop {
    /// The number of the head's node.
    pub head: u32,
    /// The numbers of its nodes: those of the function itself, and those of the functions called from them.
    pub members: Numbers,
    /// The numbers of the edges into the head that come from members.
    pub back: Numbers,
    /// The numbers of the edges into the head that come from elsewhere.
    pub entries: Numbers,
    /// How often the back edges are taken at most in one stay.
    pub maxcount: u32,
    /// How often back edges of all loops with this head's address are taken at most in a whole run, where a fact says
    /// so.
    pub totalcount: Option<u32>,
}

/// Nodes, edges and loops: contracts see the lists.
pub type UNodes = List<UNode>;

/// Edges: contracts see the list.
pub type Edges = List<Edge>;

/// Loops of an unfolding: contracts see the list.
pub type ULoops = List<ULoop>;

/// What runs of a program come to, call by call: the blocks in their chains of calls, and the moves between them.
#[derive(Debug, Drop)]
pub struct Unfolded {
    /// The program.
    pub program: Program,
    /// The number of the node where runs start.
    pub start: u32,
    /// The nodes, by their chains and then by the addresses of their blocks. A chain stands before those that go on
    /// from it; of two others the first different calls decide.
    pub nodes: UNodes,
    /// The edges, by source, then by target, an edge that is not taken before one that is.
    pub edges: Edges,
    /// The loops, by the numbers of their heads.
    pub loops: ULoops,
}
