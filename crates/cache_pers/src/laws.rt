//! Laws of the definitions: nothing is computed here.
ghost use Rattle.cache_pers.specs.Laws.{KeptIsHeld, OneMissPerStay, CoveringKeeps};
ghost use Rattle.cache_pers.specs.Laws.{YoungerAccessKeepsOrder, YoungerJoinCovers};

use cache_lru::access_keeps_cache;

/// In one stay, whatever the cache was at its begin, a line that was accessed and is kept is in the cache.
pub fn kept_is_held()
    ensures { KeptIsHeld }
{
    access_keeps_cache();
}

/// In one stay, whatever the cache was at its begin, the accesses to a line where it is kept miss at most once.
pub fn one_miss_per_stay()
    ensures { OneMissPerStay }
{
    access_keeps_cache();
}

/// What is kept in a state is kept in each state that it covers.
pub fn covering_keeps()
    ensures { CoveringKeeps }
{}

/// An access keeps one state covered by another.
pub fn younger_access_keeps_order()
    ensures { YoungerAccessKeepsOrder }
{}

/// A join covers both of its states.
pub fn younger_join_covers()
    ensures { YoungerJoinCovers }
{}
