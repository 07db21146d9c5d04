/// Where a walk is: the next instruction, how many events are decided, what those of the next instruction decided, and
/// the slots before it.
#[derive(Clone, Copy, Debug, PartialEq, Eq, Hash)]
pub struct State {
    pub at: usize,
    pub decided: usize,
    pub miss: bool,
    pub slow: bool,
    pub slots: [u64; 35],
}
