//! When a certificate is valid: its rules as definitions, apart from any program that tests them.
//!
//! A certificate tells, for each node of an unfolding, vectors that cover the pipeline's state there, each with a
//! potential: a bound on the time from there to the end of a run. Its other numbers pay for what happens seldom. The
//! charge of a group pays for its one miss in a stay of its scope; the multiplier of a loop and the price of a total pay
//! for its back edges.
#![tactic(auto)]

mod laws;

pub use laws::{first_broken_is_one, valid_breaks_none};
