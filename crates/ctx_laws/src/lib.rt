//! Laws of unfoldings: that runs of a program follow its unfolding. Nothing is computed here.
#![tactic(auto)]

mod following;
mod stays;

pub use following::{runs_follow_unfoldings, walks_tell_executed};
pub use stays::stays_are_at_members;
