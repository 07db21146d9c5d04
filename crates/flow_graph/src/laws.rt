//! Laws of the definitions: nothing is computed here.
ghost use Rattle.flow_graph.specs.Laws.{ProgramIsOne, RulesAreOne};

use flow_block::blocks_are_one;

/// An image, its facts and a start have one set of rules: functions, loops and members in the order of addresses, and
/// the bounds that the facts give.
pub fn rules_are_one()
    ensures { RulesAreOne }
{}

/// An image with facts, from a start and on a machine, has at most one program: functions, blocks and loops.
pub fn program_is_one()
    ensures { ProgramIsOne }
{
    blocks_are_one();
}
