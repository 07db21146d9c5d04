use xdd_table::Dd;

/// What is kept for a block and a vector: the diagram of the finish, and the numbers of what edges hand on where the last
/// instruction does not jump and where it does, if that was made.
#[derive(Clone, Copy, Debug, PartialEq, Eq)]
pub struct Ends {
    pub finish: Dd,
    pub behind: Option<usize>,
    pub jumped: Option<usize>,
}
