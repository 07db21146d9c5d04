/// A part of runs: within it each stay is looked at on its own.
#[derive(Clone, Copy, Debug, PartialEq, Eq)]
pub enum Scope {
    /// The whole run, which is its one stay.
    Run,
    /// One loop of the unfolding. A stay begins when the loop is entered, and lasts until the run leaves its members.
    Loop {
        /// The number of the loop, from 0.
        number: u32,
    },
}
