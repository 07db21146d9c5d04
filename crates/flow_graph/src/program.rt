use flow_block::Block;
use wx_base::Addresses;
use wx_text::List;

/// A loop of a function.
#[derive(Debug, Drop)]
pub struct LoopInfo {
    /// The address to which its back edges lead.
    pub head: u32,
    /// The addresses of its instructions, the head among them, ascending.
    pub members: Addresses,
    /// How often its back edges are taken at most each time that it is entered, by the fact on the head.
    pub maxcount: u32,
    /// How often back edges of loops with this head are taken at most in a whole run, where that fact says so.
    pub totalcount: Option<u32>,
}

/// The blocks of a function: contracts see the list.
pub type Blocks = List<Block>;

/// The loops of a function: contracts see the list.
pub type Loops = List<LoopInfo>;

/// A function: all that the ways of its instructions reach from its entry. Two functions may share addresses.
#[derive(Debug, Drop)]
pub struct Function {
    /// The address of its first instruction.
    pub entry: u32,
    /// Its blocks, in the order of their addresses.
    pub blocks: Blocks,
    /// Its loops, in the order of their heads.
    pub loops: Loops,
}

/// Functions: contracts see the list.
pub type Functions = List<Function>;

/// What a run of an image from a start can come to.
#[derive(Debug, Drop)]
pub struct Program {
    /// The entry of the function in which runs start.
    pub start: u32,
    /// The functions, in the order of their entries, the start's among them.
    pub functions: Functions,
}
