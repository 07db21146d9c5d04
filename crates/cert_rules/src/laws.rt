//! Laws of the definitions: nothing is computed here.
ghost use Rattle.cert_rules.specs.Laws.{FirstBrokenIsOne, ValidBreaksNone};

/// A valid certificate breaks no rule.
pub fn valid_breaks_none()
    ensures { ValidBreaksNone }
{}

/// The rule that is broken first, with its place, is one.
pub fn first_broken_is_one()
    ensures { FirstBrokenIsOne }
{}
