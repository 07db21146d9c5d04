use wx_base::{FactKind, Why};

/// How a run came to its end.
#[derive(Clone, Copy, Debug, PartialEq, Eq)]
pub enum End {
    /// Its last instruction ends it: a call of the supervisor, or a return without an open call.
    Ended,
    /// As many instructions as were allowed were executed, and the run has not ended.
    Limit,
    /// The machine stops before the instruction at the address.
    Stopped { why: Why, addr: u32 },
    /// The move to the next instruction breaks a rule. The address is the head of the loop, or that of the instruction
    /// which jumped, called or returned.
    Breaks { fact: FactKind, addr: u32 },
}

/// What a run came to.
#[derive(Clone, Copy, Debug, PartialEq, Eq)]
pub struct Report {
    /// How long the executed instructions take, in cycles.
    pub time: u64,
    /// How many instructions were executed.
    pub steps: u64,
    pub end: End,
}
