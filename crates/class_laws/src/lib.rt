//! Laws of classes: that runs meet the outcomes that the classes of events tell. Nothing is computed here.
#![tactic(auto)]

ghost use Rattle.class_laws.specs.Laws.{RunsVisitNodes};

use arm_code::words_are_spelled;
use cache_class::unfoldings_flow;
use cache_flow::{barred_lines_are_absent, held_lines_are_there, kept_in_stays};
use cache_lru::{access_keeps_cache, second_access_hits};
use ctx_laws::stays_are_at_members;
use run_laws::{code_stays, slow_steps_may_be_slow, words_stay_in_range};

/// Every run from a start of the image, cut anywhere, pays visits to the nodes along the walk that it follows: what it
/// executed are the instructions of these nodes' blocks, at outcomes of their events that the classes allow. The events
/// of a group miss once at most in one stay of its scope; in the whole run those of a loop miss once at most for each
/// time that the loop is entered, and for a start at its head.
pub fn runs_visit_nodes()
    ensures { RunsVisitNodes }
{
    access_keeps_cache();
    second_access_hits();
    words_are_spelled();
    slow_steps_may_be_slow();
    words_stay_in_range();
    code_stays();
    stays_are_at_members();
    held_lines_are_there();
    barred_lines_are_absent();
    kept_in_stays();
    unfoldings_flow();
}
