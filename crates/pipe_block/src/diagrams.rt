use pipe_time::Vector;
use wx_text::List;
use xdd_table::Dd;

/// The times of a block taken from a vector, as diagrams over the block's events.
#[derive(Clone, Copy, Debug, PartialEq, Eq, Hash)]
pub struct BlockVector {
    /// The slots of the vector behind the block, where its last instruction does not jump.
    pub slots: [Dd; 35],
    /// The end of the last instruction.
    pub last: Dd,
}

/// What an edge of a block hands on, as diagrams over the block's events.
#[derive(Clone, Copy, Debug, PartialEq, Eq, Hash)]
pub struct BlockExit {
    /// The cycles that are counted off.
    pub cost: Dd,
    /// The slots of the vector from there.
    pub slots: [Dd; 35],
}

/// What an edge of a block hands on at a combination.
#[derive(Clone, Copy, Debug, PartialEq, Eq)]
pub struct Outcome {
    /// The cycles that are counted off.
    pub cost: u64,
    /// The vector from there.
    pub vector: Vector,
}

/// Outcomes in some order: contracts see the list.
pub type Outcomes = List<Outcome>;

/// The different outcomes of an edge.
#[derive(Debug, Drop)]
pub struct OutcomeList {
    /// Each outcome that some combination gives, once.
    pub list: Outcomes,
    /// The diagram of the position in the list.
    pub place: Dd,
}

/// What a block hands on from a vector along an edge by which its last instruction jumps or does not, as diagrams over
/// the block's events.
#[derive(Debug, Drop)]
pub struct Leaving {
    /// The cycles that are counted off.
    pub cost: Dd,
    /// The position of the outcome in the list.
    pub place: Dd,
    /// Each outcome that some combination gives, once.
    pub list: Outcomes,
}
