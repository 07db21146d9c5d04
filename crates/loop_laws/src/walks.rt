//! Closed walks over an unfolding.

ghost use Rattle.loop_laws.specs.Laws.{ClosedWalksLieInALoop};

use flow_laws::{heads_begin_blocks, programs_lead_to_instructions};
use graph_loops::closed_walks_lie_in_loops;

/// Each closed walk over an unfolding with at least one edge lies in a loop of it: along the least chain of calls that
/// it comes to it is a closed walk of one function, from each call to the place behind it.
pub fn closed_walks_lie_in_a_loop()
    ensures { ClosedWalksLieInALoop }
{
    closed_walks_lie_in_loops();
    heads_begin_blocks();
    programs_lead_to_instructions();
}
