ghost use Rattle.flow_laws.specs.Programs.{StepsGoPast, HeadsBeginBlocks, BlocksLieInLoops};
ghost use Rattle.flow_laws.specs.Programs.{ProgramsLeadToInstructions, RunsOfProgramsFindInstructions};

use graph_loops::{heads_are_entries, single_edges_keep_membership};
use run_laws::runs_stay_in_reached;

/// An instruction that a step goes behind is one that blocks take to be passed: no call that is always executed, and
/// nothing else that never goes on.
pub fn steps_go_past()
    ensures { StepsGoPast }
{}

/// Each head of a function begins a block, in an image whose segments end within memory.
pub fn heads_begin_blocks()
    ensures { HeadsBeginBlocks }
{
    heads_are_entries();
}

/// All instructions of a block of a program are members of a loop of its function, or none is.
pub fn blocks_lie_in_loops()
    ensures { BlocksLieInLoops }
{
    heads_are_entries();
    single_edges_keep_membership();
}

/// Ways and calls of a program against which no cause stands lead to instructions alone, so no run that is judged by its
/// rules stops for want of one.
pub fn programs_lead_to_instructions()
    ensures programs { ProgramsLeadToInstructions }
    ensures runs { RunsOfProgramsFindInstructions }
{
    runs_stay_in_reached();
}
