//! Laws of what was worked out. The function does nothing: its contract is the law.

ghost use Rattle.node_exits.specs.NodeExits.{NodeLeavingStays, WorkStays};

use pipe_block::kept_answers_stay;

/// What was worked out stays right as the table grows, and so does what a node's block hands on.
pub fn exits_stay()
    ensures work { WorkStays }
    ensures leaving { NodeLeavingStays }
{
    kept_answers_stay();
}
