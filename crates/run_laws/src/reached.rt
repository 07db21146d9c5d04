//! Where runs stay.

ghost use Rattle.run_laws.specs.Moving.{FramesAreListed};
ghost use Rattle.run_laws.specs.Reached.{RunsStayInReached, FramesStayInFunctions, RunsFindInstructions};

/// A run executes nothing but what ways and calls lead to from its entry, each frame stays in its function, which the
/// rules of the image list, and where all that ways and calls lead to are instructions, no run stops for want of one.
pub fn runs_stay_in_reached()
    ensures reached { RunsStayInReached }
    ensures functions { FramesStayInFunctions }
    ensures listed { FramesAreListed }
    ensures found { RunsFindInstructions }
{}
