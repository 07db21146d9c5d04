/// The six times of an instruction on the pipeline, in cycles from the start of the run.
#[derive(Clone, Copy, Debug, PartialEq, Eq)]
pub struct Times {
    /// Its fetch begins.
    pub f: u64,
    /// Its fetch ends.
    pub fe: u64,
    /// It is decoded, and its place in the queue is free.
    pub d: u64,
    /// Its unit starts it.
    pub x: u64,
    /// Its unit has its result.
    pub xe: u64,
    /// It is complete, as are all before it.
    pub c: u64,
}
