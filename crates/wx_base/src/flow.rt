/// Where an instruction may go on, of itself: what it is to the flow of a function. Targets are addresses; those of
/// indirect jumps and of calls by register are no part of the word.
#[derive(Clone, Copy, Debug, PartialEq, Eq)]
pub struct FlowKind {
    /// Whether it may go on at the next address, as it may behind each call too.
    pub next: bool,
    /// The target of a direct jump.
    pub jump: Option<u32>,
    /// The target of a direct call.
    pub call: Option<u32>,
    /// Whether it calls an address in a register.
    pub call_any: bool,
    /// Whether it returns.
    pub ret: bool,
    /// Whether it jumps to an address in a register or in memory and does not return.
    pub indirect: bool,
    /// Whether it ends the run.
    pub stop: bool,
}
