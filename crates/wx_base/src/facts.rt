use wx_text::List;

/// Addresses of instructions: contracts see the list.
pub type Addresses = List<u32>;

/// How often the back edges of a loop are taken at most.
#[derive(Clone, Copy, Debug, PartialEq, Eq)]
pub struct LoopFact {
    /// The address of the loop's head.
    pub address: u32,
    /// How often the loop's back edges are taken at most each time that the loop is entered.
    pub maxcount: u32,
    /// How often back edges of loops with this head are taken at most in a whole run, where a fact says so.
    pub totalcount: Option<u32>,
}

/// Where an indirect jump or call goes.
#[derive(Debug, Drop)]
pub struct TargetFact {
    /// The address of the instruction that jumps or calls.
    pub address: u32,
    /// The addresses that it may go to, perhaps none.
    pub targets: Addresses,
}

/// Facts on loops, in the order of the loops' heads: contracts see the list.
pub type LoopFacts = List<LoopFact>;

/// Facts on where indirect jumps or calls go, in the order of their addresses: contracts see the list.
pub type TargetFacts = List<TargetFact>;

/// What a user says of a program's flow. A run that does otherwise is not bounded.
#[derive(Debug, Drop)]
pub struct Facts {
    /// The facts on loops, ascending by their heads.
    pub loops: LoopFacts,
    /// Where indirect jumps go, ascending by the jumps.
    pub branches: TargetFacts,
    /// Where indirect calls go, ascending by the calls.
    pub calls: TargetFacts,
}
