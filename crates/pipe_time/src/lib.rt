//! Vectors and the recurrence of the pipeline: how one instruction moves a vector on, and the laws of time.
#![tactic(auto)]

mod counting;
mod equations;
mod laws;
mod pool;
mod recurrence;
mod units;
mod vector;

pub use counting::{covers, rebase};
pub use laws::{
    a_shift_moves_all_times, completion_never_falls, covering_survives_a_rebase,
    delay_is_passed_on, every_fetch_missing_is_the_longest, growth,
    raising_to_the_next_fetch_changes_nothing, rebase_keeps_times, windows_follow_the_past,
    windows_go_on, worse_is_no_faster,
};
pub use pool::VectorPool;
pub use recurrence::advance;
pub use vector::{Entry, Vector};
pub use wx_base::Times;
