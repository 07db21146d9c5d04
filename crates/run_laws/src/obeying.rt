//! Runs that obey.

ghost use Rattle.run_laws.specs.Obeying.{StepsGiveRuns, RunsAreSteps, PrefixesObey, PrefixesAreExecuted};
ghost use Rattle.run_laws.specs.Obeying.{RunsWithoutEndAreWhole, RunsAreNoLonger, TimesAreTheRecurrence};

/// The runs that obey are those that go on step by step with each move allowed; so a run that is cut earlier obeys too.
pub fn steps_of_runs()
    ensures sound { StepsGiveRuns }
    ensures whole { RunsAreSteps }
    ensures prefixes { PrefixesObey }
{}

/// A longer run goes on behind a shorter one, a run of at most n instructions that has not ended has executed n, and
/// the times of its instructions are those of the recurrence.
pub fn executed_of_prefixes()
    ensures prefixes { PrefixesAreExecuted }
    ensures unended { RunsWithoutEndAreWhole }
    ensures most { RunsAreNoLonger }
    ensures times { TimesAreTheRecurrence }
{}
