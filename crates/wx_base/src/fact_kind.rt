/// The rule that a move of a run breaks.
#[derive(Clone, Copy, Debug, PartialEq, Eq)]
pub enum FactKind {
    /// An indirect jump goes to no listed target.
    Branch,
    /// A call by register goes to no listed target.
    Call,
    /// A return does not go to the address behind the call that opened its function's activation.
    Return,
    /// The back edges into a loop's head are taken more often in one stay than the fact on it says.
    Loop,
    /// The back edges into a loop's head are taken more often in the whole run than the fact on it says.
    Total,
}
