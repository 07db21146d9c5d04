//! The finishes of the graph of an unfolding.

ghost use Rattle.path_laws.specs.Laws.{FinishesAreNatural};

/// No finish is below 0: some combination charges nothing, and a finish is at least what the end of a walk weighs under
/// it.
pub fn finishes_are_natural()
    ensures { FinishesAreNatural }
{}
