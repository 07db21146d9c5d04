//! What single steps tell of the instruction at pc.

ghost use Rattle.run_laws.specs.Stepping.{SlowStepsMayBeSlow, EndsAreStops, StopsGoOnPassedOver};

/// Nothing but multiplications, and transfers on a machine with a slow region, is ever slow.
pub fn slow_steps_may_be_slow()
    ensures { SlowStepsMayBeSlow }
{}

/// A step that ends the run is one of an instruction that stops it, and such an instruction goes on only where its
/// condition fails.
pub fn ends_are_stops()
    ensures ends { EndsAreStops }
    ensures on { StopsGoOnPassedOver }
{}
