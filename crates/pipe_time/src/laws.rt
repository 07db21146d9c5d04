//! Laws of the recurrence. Each function does nothing: its contract is the law, for every machine, start and list.

ghost use Rattle.pipe_time.specs.Windows.{WindowGivesTimes, WindowGivesWindow, ZeroIsNothing, NothingIsZero, ZeroStays};
ghost use Rattle.pipe_time.specs.Windows.{SteppingIsTheRecurrence, CompletionNeverFalls};
ghost use Rattle.pipe_time.specs.Windows.{WindowsGoOn, WindowsLeadOn, CompletionGoesOn};
ghost use Rattle.pipe_time.specs.Order.{WorseIsNoFaster, WorseCompletesNoEarlier, WorseStaysCovering};
ghost use Rattle.pipe_time.specs.Order.{DelayIsPassedOn, DelayOfCompletion, DelayOfSlots, MissingIsTheLongest};
ghost use Rattle.pipe_time.specs.Order.{ShiftMovesTimes, ShiftMovesCompletion};
ghost use Rattle.pipe_time.specs.Floor.{RaisingChangesNothing};
ghost use Rattle.pipe_time.specs.Growth.{TimesGrowLittle, SlotsGrowLittle};
ghost use Rattle.pipe_time.specs.Rebase.{RebasedIsNoFaster, RebasedCompletesNoEarlier, RebasedIsExact, RebasedCompletionIsExact};
ghost use Rattle.pipe_time.specs.Rebase.{RebasedPlusCostCovers, BaseIsMonotone, CostIsMonotone, CoverSurvives};

/// A vector is all that times depend on: continuing from the window on a past gives what continuing from the past
/// gives, and stepping through a list of instructions from the zero vector gives the six times of the recurrence.
pub fn windows_follow_the_past()
    ensures times { WindowGivesTimes }
    ensures slots { WindowGivesWindow }
    ensures zero { ZeroIsNothing }
    ensures nothing { NothingIsZero }
    ensures stays { ZeroStays }
    ensures stepping { SteppingIsTheRecurrence }
{}

/// Going on through a list of instructions from the window on a past gives what going on behind that past gives: the
/// times, the window behind them and the last completion.
pub fn windows_go_on()
    ensures times { WindowsGoOn }
    ensures slots { WindowsLeadOn }
    ensures completion { CompletionGoesOn }
{}

/// One more instruction is complete no earlier than those before it.
pub fn completion_never_falls()
    ensures { CompletionNeverFalls }
{}

/// One instruction raises the greatest slot by at most 4,016 cycles.
pub fn growth()
    ensures times { TimesGrowLittle }
    ensures slots { SlotsGrowLittle }
{}

/// From a covering vector, over the same instructions with at least as many misses and slow ones, no time is earlier.
pub fn worse_is_no_faster()
    ensures times { WorseIsNoFaster }
    ensures completion { WorseCompletesNoEarlier }
    ensures slots { WorseStaysCovering }
{}

/// A start whose slots are at most some cycles later makes every time at most that much later.
pub fn delay_is_passed_on()
    ensures times { DelayIsPassedOn }
    ensures completion { DelayOfCompletion }
    ensures slots { DelayOfSlots }
{}

/// From the empty pipeline no choice of hits and misses takes longer than missing at every fetch.
pub fn every_fetch_missing_is_the_longest()
    ensures { MissingIsTheLongest }
{}

/// A start that is later by some cycles in each slot that the machine uses makes every time later by exactly those.
pub fn a_shift_moves_all_times()
    ensures times { ShiftMovesTimes }
    ensures completion { ShiftMovesCompletion }
{}

/// No time of a run is earlier than its first fetch, so a slot below that fetch may be raised up to it.
pub fn raising_to_the_next_fetch_changes_nothing()
    ensures { RaisingChangesNothing }
{}

/// From a vector no time is later than its cost and the time from the rebased vector, and where the cost is the base
/// every time is that sum.
pub fn rebase_keeps_times()
    ensures times { RebasedIsNoFaster }
    ensures completion { RebasedCompletesNoEarlier }
    ensures exact { RebasedIsExact }
    ensures exact_completion { RebasedCompletionIsExact }
{}

/// A vector that covers another has at least its base and its cost, and once it is rebased it still covers the other when
/// the cost is added.
pub fn covering_survives_a_rebase()
    ensures slots { RebasedPlusCostCovers }
    ensures base { BaseIsMonotone }
    ensures cost { CostIsMonotone }
    ensures covers { CoverSurvives }
{}
