use std::collections::BTreeSet;

/// The addresses of which facts spoke so far, by the facts' kinds.
#[derive(Drop)]
pub(crate) struct Seen {
    /// Those of loops.
    pub loops: BTreeSet<u32>,
    /// Those of jumps.
    pub branches: BTreeSet<u32>,
    /// Those of calls.
    pub calls: BTreeSet<u32>,
}
