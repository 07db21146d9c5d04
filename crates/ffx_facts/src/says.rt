use crate::kind::Kind;

/// How often the back edges of a loop are taken at most.
#[derive(Clone, Copy, Debug)]
pub(crate) struct Bounds {
    /// In one stay, which begins when the loop is entered.
    pub maxcount: u32,
    /// In a whole run, where the file says so.
    pub totalcount: Option<u32>,
}

/// What an element says.
#[derive(Clone, Copy, Debug)]
pub(crate) struct Says {
    /// What the element is.
    pub kind: Kind,
    /// The address that it speaks of, 0 for the file and for functions.
    pub address: u32,
    /// The bounds of a loop, where it has some.
    pub bounds: Option<Bounds>,
}
