//! Laws of the time of runs that go block by block: vectors that cover what each block leaves behind bound it.
#![tactic(auto)]

ghost use Rattle.time_laws.specs.Stretches.{VectorsCoverRuns, VectorsBoundTimes};

use pipe_time::{
    completion_never_falls, covering_survives_a_rebase, delay_is_passed_on,
    windows_follow_the_past, windows_go_on,
};

/// Where behind each stretch of a run a vector covers what the stretch hands on from the vector before it, the run's own
/// vector is covered once what was counted off is added; and a run that is cut within a further stretch takes at most
/// what was counted off and the whole stretch from there. The function does nothing: its contract is the law.
pub fn vectors_bound_times()
    ensures slots { VectorsCoverRuns }
    ensures completion { VectorsBoundTimes }
{
    windows_follow_the_past();
    windows_go_on();
    completion_never_falls();
    delay_is_passed_on();
    covering_survives_a_rebase();
}
