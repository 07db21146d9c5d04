use xdd_table::Dd;

/// The slots of a vector and a number beside them: the end of the last instruction, or a cost.
#[derive(Clone, Copy, Debug, PartialEq, Eq, Hash)]
pub struct Row {
    pub number: u64,
    pub slots: [u64; 35],
}

/// A row as diagrams.
#[derive(Clone, Copy, Debug, PartialEq, Eq, Hash)]
pub struct Bundle {
    pub number: Dd,
    pub slots: [Dd; 35],
}
