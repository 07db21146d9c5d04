ghost use Rattle.std.specs.Prelude.{◌≡◌};
ghost use Rattle.ffx_facts.specs.Pieces.{holds, is_same_kind};

/// What an element of a facts file is. Its name in the file is the variant's in lower case.
#[derive(Clone, Copy, Debug)]
pub(crate) enum Kind {
    /// The whole file.
    FlowFacts,
    /// What concerns one function; it says nothing itself.
    Function,
    /// A loop.
    Loop,
    /// A jump to one of several addresses.
    MultiBranch,
    /// A call of one of several functions.
    MultiCall,
    /// An address to which a jump or a call goes.
    Target,
}

impl Kind {
    // Whether both are the same.
    pub(crate) fn is(self, other: Kind) -> bool
        ensures { result ≡ is_same_kind self other }
    {
        match self {
            Kind::FlowFacts => matches!(other, Kind::FlowFacts),
            Kind::Function => matches!(other, Kind::Function),
            Kind::Loop => matches!(other, Kind::Loop),
            Kind::MultiBranch => matches!(other, Kind::MultiBranch),
            Kind::MultiCall => matches!(other, Kind::MultiCall),
            Kind::Target => matches!(other, Kind::Target),
        }
    }

    // Whether an element may stand right inside this one.
    pub(crate) fn holds(self, inner: Kind) -> bool
        ensures { result ≡ holds self inner }
    {
        match self {
            Kind::FlowFacts | Kind::Function | Kind::Loop => {
                !matches!(inner, Kind::FlowFacts | Kind::Target)
            }
            Kind::MultiBranch | Kind::MultiCall => matches!(inner, Kind::Target),
            Kind::Target => false,
        }
    }
}
