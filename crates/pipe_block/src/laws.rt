//! Laws of blocks and of kept answers. Each function does nothing: its contract is the law.

ghost use Rattle.pipe_block.specs.Laws.{BlocksAreTimed, FinishesStay, InterningKeeps, LeavingsStay, NoEndIsRight, NodesAreTimed, RightEndsStay, TimesStay};

/// The times of a block, its finish and what it hands on stay what they are as the table grows, and what a memo keeps
/// stays right as table and pool grow; the pool does so where a vector is interned. A new memo keeps nothing wrong.
pub fn kept_answers_stay()
    ensures times { TimesStay }
    ensures finishes { FinishesStay }
    ensures leavings { LeavingsStay }
    ensures right { RightEndsStay }
    ensures pool { InterningKeeps }
    ensures none { NoEndIsRight }
{}

/// A block of a function, and so that of a node, can be timed: its instructions are valid, and its events are few and
/// stand in their order.
pub fn blocks_are_timed()
    ensures blocks { BlocksAreTimed }
    ensures nodes { NodesAreTimed }
{}
