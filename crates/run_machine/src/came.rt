use wx_base::FlowKind;

/// How a run came to an instruction.
#[derive(Clone, Copy, Debug, PartialEq, Eq)]
pub(crate) enum Came {
    /// It is the run's first.
    First,
    /// The instruction before it went on.
    On,
    /// The instruction before it jumped, called or returned; this is what it is to the flow.
    Jumped { flow: FlowKind },
}
