//! The stays of walks in loops.

ghost use Rattle.ctx_laws.specs.Laws.{StaysAreAtMembers, StaysAreOne};

/// A walk has at most one stay in a loop, told by when it began and by its back edges, and while it lasts the walk is
/// at a member.
pub fn stays_are_at_members()
    ensures one { StaysAreOne }
    ensures members { StaysAreAtMembers }
{}
