//! What the path problem asks of the graph of an unfolding.

ghost use Rattle.path_laws.specs.Laws.{GraphIsSound};

use loop_laws::{
    back_edges_are_of_one_loop, closed_walks_lie_in_a_loop, loops_have_edges,
    smaller_loops_are_within,
};

/// The graph meets the conditions of the path problem: a closed walk of it goes along a closed walk of the unfolding,
/// which lies in a loop, and its loops lie in one another as those of the unfolding do.
pub fn graph_is_sound()
    ensures { GraphIsSound }
{
    closed_walks_lie_in_a_loop();
    smaller_loops_are_within();
    loops_have_edges();
    back_edges_are_of_one_loop();
}
