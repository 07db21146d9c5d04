//! How runs follow unfoldings.

ghost use Rattle.ctx_laws.specs.Laws.{FollowedWalksAreWalks, RunsFollowUnfoldings, WalksTellExecuted};

use flow_laws::{blocks_lie_in_loops, heads_begin_blocks, steps_go_past};
use graph_loops::heads_are_entries;
use run_laws::{
    code_stays, frames_tell_calls, runs_go_by_flow, runs_stay_in_reached, steps_follow_flow,
    words_stay_in_range,
};

/// Every run of a program, cut anywhere, is in the block of some node of the unfolding: its instructions are those of
/// the blocks along a walk over the edges. At a member of a loop it is in a stay of the loop, and each stay is within
/// the loop's bound. At the walk's end the counters of the frames are the numbers of back edges of the stays that
/// last, and the totals those of the whole walk.
pub fn runs_follow_unfoldings()
    ensures { RunsFollowUnfoldings }
{
    heads_are_entries();
    heads_begin_blocks();
    blocks_lie_in_loops();
    steps_go_past();
    steps_follow_flow();
    frames_tell_calls();
    runs_go_by_flow();
    runs_stay_in_reached();
    words_stay_in_range();
    code_stays();
}

/// What a run follows is a walk over the unfolding, and each earlier part of it has what was executed till then.
pub fn walks_tell_executed()
    ensures walks { FollowedWalksAreWalks }
    ensures executed { WalksTellExecuted }
{}
