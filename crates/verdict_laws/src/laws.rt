ghost use Rattle.verdict_laws.specs.Laws.{HasClasses, ValidOrBroken};

/// The events of each unfolding have classes, on each machine.
pub fn unfoldings_have_classes()
    ensures { HasClasses }
{}

/// Whatever the unfolding, the machine and the classes, a certificate is valid for them or breaks a rule first.
pub fn certificates_are_valid_or_broken()
    ensures { ValidOrBroken }
{}
