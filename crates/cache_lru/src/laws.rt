//! Laws of the definitions: nothing is computed here.
ghost use Rattle.cache_lru.specs.Laws.{AccessedIsYoungest, SecondAccessHits, AccessKeepsCache};

/// After an access the cache holds the line, and it is the youngest of its set.
pub fn accessed_is_youngest()
    ensures { AccessedIsYoungest }
{}

/// A second access of the same line at once hits and changes nothing.
pub fn second_access_hits()
    ensures { SecondAccessHits }
{}

/// An access leaves lists of different lines of their sets, no longer than there are ways.
pub fn access_keeps_cache()
    ensures { AccessKeepsCache }
{}
