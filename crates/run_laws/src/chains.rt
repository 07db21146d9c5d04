//! What frames tell of a run.

ghost use Rattle.run_laws.specs.Chains.{FramesTellLast, RunsHaveCalled, LooksHaveCalled, MovesChangeCalls};

/// The youngest frame of a run has the address that was executed last, and each other one has that of the call that
/// opened the frame above it.
pub fn frames_tell_calls()
    ensures last { FramesTellLast }
    ensures runs { RunsHaveCalled }
    ensures looks { LooksHaveCalled }
{}

/// A move that is a call opens one more call at the instruction it comes from, a return closes the last one and leads
/// behind it, and every other move leaves the open calls as they are.
pub fn moves_change_calls()
    ensures { MovesChangeCalls }
{}
