//! Laws of the definitions: nothing is computed here.
ghost use Rattle.cache_ages.specs.Laws.{MustStartCovers, MustAccessCovers, MustJoinCovers, MustCoveringCovers};
ghost use Rattle.cache_ages.specs.Laws.{MustAccessKeepsOrder, MustHoldsLine, MayStartCovers, MayAccessCovers};
ghost use Rattle.cache_ages.specs.Laws.{MayJoinCovers, MayCoveringCovers, MayAccessKeepsOrder, AmongCovers, MayBarsLine};

/// Where nothing is known for sure, every cache is covered.
pub fn must_start_covers()
    ensures { MustStartCovers }
{}

/// An access in a must state and in a cache keeps the cache covered.
pub fn must_access_covers()
    ensures { MustAccessCovers }
{}

/// What one of two must states covers their join covers.
pub fn must_join_covers()
    ensures { MustJoinCovers }
{}

/// A must state that covers another covers each cache that the other covers.
pub fn must_covering_covers()
    ensures { MustCoveringCovers }
{}

/// An access keeps one must state covered by another.
pub fn must_access_keeps_order()
    ensures { MustAccessKeepsOrder }
{}

/// A line that is held for sure is in every cache that the state covers.
pub fn must_holds_line()
    ensures { MustHoldsLine }
{}

/// Where each line may be anywhere, every cache is covered.
pub fn may_start_covers()
    ensures { MayStartCovers }
{}

/// An access in a may state and in a cache keeps the cache covered.
pub fn may_access_covers()
    ensures { MayAccessCovers }
{}

/// What one of two may states covers their join covers.
pub fn may_join_covers()
    ensures { MayJoinCovers }
{}

/// A may state that covers another covers each cache that the other covers.
pub fn may_covering_covers()
    ensures { MayCoveringCovers }
{}

/// An access keeps one may state covered by another.
pub fn may_access_keeps_order()
    ensures { MayAccessKeepsOrder }
{}

/// The bounds of some lines alone cover what all bounds cover.
pub fn among_covers()
    ensures { AmongCovers }
{}

/// A line whose bound is the number of ways is in no cache that the state covers.
pub fn may_bars_line()
    ensures { MayBarsLine }
{}
