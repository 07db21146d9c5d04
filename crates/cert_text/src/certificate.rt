use flow_ctx::Scope;
use pipe_time::Vector;
use wx_text::List;

/// A vector of a node with its potential.
#[derive(Clone, Copy, Debug, PartialEq, Eq)]
pub struct CertVector {
    /// The greatest time from here to the end of a run, in cycles, by the certificate's prices.
    pub potential: u64,
    /// The vector.
    pub slots: Vector,
}

/// The charge of a cache line: what its first miss in each stay of a scope costs.
#[derive(Clone, Copy, Debug, PartialEq, Eq)]
pub struct Charge {
    /// The cache line.
    pub line: u32,
    /// Where it misses once at most.
    pub scope: Scope,
    /// The charge, in cycles.
    pub amount: u64,
}

/// The price of a total.
#[derive(Clone, Copy, Debug, PartialEq, Eq)]
pub struct TotalPrice {
    /// The address of the head of the total's loops.
    pub address: u32,
    /// The price of a back arc, in cycles.
    pub amount: u64,
}

/// The vectors of a node: contracts see their list.
pub type Family = List<CertVector>;

/// The vectors of each node: contracts see their list.
pub type Families = List<Family>;

/// A bound with all that is needed to check it.
#[derive(Debug, Drop)]
pub struct Certificate {
    /// The vectors of each node, by its number.
    pub families: Families,
    /// The charges, by line and then by scope.
    pub charges: List<Charge>,
    /// The multiplier of each loop, by its number, in cycles.
    pub multipliers: List<u64>,
    /// The totals that have a price, by address.
    pub totals: List<TotalPrice>,
    /// The bound, in cycles.
    pub bound: u64,
}
