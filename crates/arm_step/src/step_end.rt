use wx_base::Why;

/// What a step came to.
#[derive(Clone, Copy, Debug, PartialEq, Eq)]
pub enum StepEnd {
    /// The instruction was executed, or its condition failed; `taken` says that it jumped, `slow` that it was slow: a
    /// multiplication by 65,536 or more, or an access to a slow region.
    Next { taken: bool, slow: bool },
    /// A call of the supervisor ends the run.
    Ended,
    /// Nothing was executed; `addr` is the address of the instruction.
    Stopped { why: Why, addr: u32 },
}
