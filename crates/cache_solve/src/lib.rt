//! The least solutions over the flow of a program: what is known of a cache at each of its nodes.
#![tactic(auto)]

mod marks;
mod may;
mod must;
mod passing;
mod solver;
mod state;
mod younger;

pub use may::may_states;
pub use must::must_states;
pub use passing::{may_behind, must_behind, younger_behind};
pub use younger::younger_states;
