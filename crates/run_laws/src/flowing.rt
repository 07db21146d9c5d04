//! Where steps and runs lead.

ghost use Rattle.run_laws.specs.Flowing.{StepsFollowFlow};
ghost use Rattle.run_laws.specs.Moving.{RunsGoByFlow};

/// An instruction that is not taken may go on, and leads to the address behind it; if it is a call, its condition may
/// fail. One that is taken leads to its direct target, or it calls by register, returns or jumps indirectly.
pub fn steps_follow_flow()
    ensures { StepsFollowFlow }
{}

/// A run that goes on without breaking a rule goes behind its last instruction, jumps to a direct target or one that
/// the facts list, calls a function, or returns behind the open call; its frames change as that says. At the head of a
/// loop the move counts in the frame that moves and in the totals, within the loop's bounds, and nowhere else.
pub fn runs_go_by_flow()
    ensures { RunsGoByFlow }
{}
