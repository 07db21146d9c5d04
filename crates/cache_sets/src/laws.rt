//! Laws of the definitions: nothing is computed here.
ghost use Rattle.cache_sets.specs.Sets.{SetsTellHeld, SetsTellBarred, SetsTellKept};

/// What is told of a line where a node accesses it is what the accesses to its set alone tell there.
pub fn sets_tell()
    ensures held { SetsTellHeld }
    ensures barred { SetsTellBarred }
    ensures kept { SetsTellKept }
{}
