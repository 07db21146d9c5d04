//! Laws of the definitions: nothing is computed here.
ghost use Rattle.machine_desc.specs.Laws.{DescribedOrRefused, DescriptionsAreInRange, NotBoth, OneCause, OneMachine};

/// Exactly one answer is due, whatever the bytes, but for want of memory: they describe a machine, and no other, or the
/// cause of one refusal stands and none before it.
pub fn one_answer_is_due()
    ensures some { DescribedOrRefused }
    ensures one_machine { OneMachine }
    ensures one_cause { OneCause }
    ensures not_both { NotBoth }
{}

/// The numbers of a machine that bytes describe lie in their ranges.
pub fn descriptions_are_in_range()
    ensures { DescriptionsAreInRange }
{}
