ghost use Rattle.unfolding_laws.specs.Laws.{UnfoldedOrTooLarge};

/// A program that was built has an unfolding with no more nodes than there may be, or it has too many.
pub fn programs_are_unfolded_or_too_large()
    ensures { UnfoldedOrTooLarge }
{}
