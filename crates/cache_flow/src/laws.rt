//! Laws of the definitions: nothing is computed here.
ghost use Rattle.cache_flow.specs.Laws.{MustSolutionsHold, MaySolutionsHold, YoungerSolutionsHold, HeldLinesAreThere};
ghost use Rattle.cache_flow.specs.Laws.{BarredLinesAreAbsent, KeptInStays, LeastMustIsOne, LeastMayIsOne, LeastYoungerIsOne};
ghost use Rattle.cache_flow.specs.Shown.{LeastMustShows, LeastMayShows, LeastYoungerShows};

use cache_ages::{may_access_covers, may_bars_line, must_access_covers, must_holds_line};
use cache_lru::access_keeps_cache;
use cache_pers::{covering_keeps, kept_is_held, younger_access_keeps_order};

/// Whatever the cache was at the start of a run, the must state of a node covers what it is there.
pub fn must_solutions_hold()
    ensures { MustSolutionsHold }
{
    access_keeps_cache();
    must_access_covers();
}

/// Whatever the cache was at the start of a run, the may state of a node covers what it is there.
pub fn may_solutions_hold()
    ensures { MaySolutionsHold }
{
    access_keeps_cache();
    may_access_covers();
}

/// In a stay in a part the state of a node covers what the accesses of the stay tell.
pub fn younger_solutions_hold()
    ensures { YoungerSolutionsHold }
{
    younger_access_keeps_order();
}

/// A line that the must state at an access holds is in the cache there, in every run from every cache.
pub fn held_lines_are_there()
    ensures { HeldLinesAreThere }
{
    access_keeps_cache();
    must_access_covers();
    must_holds_line();
}

/// A line that the may state at an access bars is not in the cache there, in every run from every cache.
pub fn barred_lines_are_absent()
    ensures { BarredLinesAreAbsent }
{
    access_keeps_cache();
    may_access_covers();
    may_bars_line();
}

/// In one stay in a part the accesses to a line where it is kept miss at most once, whatever the cache was: each of
/// them before which the line was accessed in the stay hits.
pub fn kept_in_stays()
    ensures { KeptInStays }
{
    covering_keeps();
    younger_access_keeps_order();
    kept_is_held();
}

/// Two least must solutions have the same ages of the flow's lines at each node.
pub fn least_must_is_one()
    ensures { LeastMustIsOne }
{}

/// Two least may solutions have the same ages of the flow's lines at each node.
pub fn least_may_is_one()
    ensures { LeastMayIsOne }
{}

/// Two least solutions of a part tell the same of the flow's lines at each member.
pub fn least_younger_is_one()
    ensures { LeastYoungerIsOne }
{}

/// The least solutions show at an access what some solution shows there.
pub fn least_solutions_show()
    ensures must { LeastMustShows }
    ensures may { LeastMayShows }
    ensures younger { LeastYoungerShows }
{}
