use crate::unfolded::Call;

/// A block in a chain of calls, as it is looked for.
#[derive(Debug, Drop, PartialEq, Eq, PartialOrd, Ord, Hash)]
pub(crate) struct Place {
    /// The open calls, the oldest first.
    pub chain: Vec<Call>,
    /// The position of the function in the program.
    pub function: u32,
    /// The position of the block in the function.
    pub block: u32,
}
