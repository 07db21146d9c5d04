//! Laws of runs on the written machine: what holds of every run, whatever the image, the rules and the start.
#![tactic(auto)]

mod chains;
mod code;
mod flowing;
mod obeying;
mod reached;
mod stepping;

pub use chains::{frames_tell_calls, moves_change_calls};
pub use code::{code_stays, words_stay_in_range};
pub use flowing::{runs_go_by_flow, steps_follow_flow};
pub use obeying::{executed_of_prefixes, steps_of_runs};
pub use reached::runs_stay_in_reached;
pub use stepping::{ends_are_stops, slow_steps_may_be_slow};
