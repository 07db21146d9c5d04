//! How loops of an unfolding lie in one another.

ghost use Rattle.loop_laws.specs.Laws.{LoopsOfOneSizeAreOne, SmallerLoopsAreWithin};

use graph_loops::{heads_are_entries, loops_are_nested};

/// Loops of an unfolding are nested or apart: of two that share a member, one that has no more members than the other
/// is within it, and two of one size are the same.
pub fn smaller_loops_are_within()
    ensures within { SmallerLoopsAreWithin }
    ensures one { LoopsOfOneSizeAreOne }
{
    loops_are_nested();
    heads_are_entries();
}
