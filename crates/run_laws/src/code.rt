//! What a run leaves as it is.

ghost use Rattle.run_laws.specs.Ranges.{StepsStayInRange, RunsStayInRange, StepsKeepCode, RunsKeepCode};
ghost use Rattle.run_laws.specs.Ranges.{CodeIsTheImages, ExecutedWordsAreTheImages};

/// Registers hold words and memory holds bytes, behind each step and along each run.
pub fn words_stay_in_range()
    ensures steps { StepsStayInRange }
    ensures runs { RunsStayInRange }
{}

/// No step changes a byte of code, so the words that a run executes are those of the image at their addresses.
pub fn code_stays()
    ensures steps { StepsKeepCode }
    ensures runs { RunsKeepCode }
    ensures looks { CodeIsTheImages }
    ensures words { ExecutedWordsAreTheImages }
{}
