//! Laws of what misses are charged. Each function does nothing: its contract is the law.

ghost use Rattle.cert_judge.specs.Laws.{MissesAreCharged};

/// What the misses of a block are charged by a list of charges is the sum of what each event that misses is charged,
/// where the list has the charge of each first miss and no other event is charged.
pub fn misses_are_charged()
    ensures { MissesAreCharged }
{}
