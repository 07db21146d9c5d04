//! That bounds hold: no run takes longer than the bound of a valid certificate. Nothing is computed here.
#![tactic(auto)]

ghost use Rattle.bound_laws.specs.Laws.{ValidBoundsHold};

use class_laws::runs_visit_nodes;
use ctx_laws::{runs_follow_unfoldings, walks_tell_executed};
use run_laws::executed_of_prefixes;
use time_laws::vectors_bound_times;

/// No run of a program takes longer than the bound of a certificate that is valid for the program's unfolding and the
/// classes of its events: whatever the registers, the memory and the cache hold at the start, and wherever it is cut.
/// The function does nothing: its contract is the law.
pub fn valid_bounds_hold()
    ensures { ValidBoundsHold }
{
    runs_follow_unfoldings();
    walks_tell_executed();
    runs_visit_nodes();
    executed_of_prefixes();
    vectors_bound_times();
}
