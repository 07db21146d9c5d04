//! A cache set by set: the accesses of a flow to the lines of one set, and what these alone tell of each of them.
//!
//! An access to a line leaves the lines of other sets as they are, so nothing is lost; and a set has few lines.
#![tactic(auto)]

mod laws;
mod narrow;
mod verdict;

pub use laws::sets_tell;
pub use narrow::set_flow;
pub use verdict::{NodeVerdicts, Verdict, verdicts};
