use cert_lines::Version;
use flow_ctx::Scope;
use wx_text::List;

/// Two numbers with a colon between them.
#[derive(Clone, Copy, Debug, PartialEq, Eq)]
pub struct Pair {
    /// The number before the colon.
    pub left: u64,
    /// The number behind it.
    pub right: u64,
}

/// Pairs of a line: contracts see their list.
pub type Pairs = List<Pair>;

/// What a line of a certificate's text tells.
#[derive(Debug, Drop)]
pub enum Item {
    /// The text is a certificate's.
    Head {
        /// Its version.
        version: Version,
    },
    /// A node, version 1.
    Node {
        /// The node's number, from 0.
        number: u32,
        /// How many vectors follow.
        count: u32,
    },
    /// A vector of a node, version 1.
    Vector {
        /// The vector's potential.
        potential: u64,
        /// Its slots that are not 0, each with its value.
        slots: Pairs,
    },
    /// How many vectors follow, version 2.
    Count {
        /// The number of different vectors.
        count: u32,
    },
    /// A vector, version 2.
    Listed {
        /// Its slots that are not 0, each with its value.
        slots: Pairs,
    },
    /// A node, version 2.
    Places {
        /// The node's number, from 0.
        number: u32,
        /// The potential and the place of each of its vectors.
        places: Pairs,
    },
    /// The charge of a cache line.
    Charge {
        /// The cache line.
        line: u32,
        /// Where it is charged.
        scope: Scope,
        /// The charge, in cycles.
        amount: u64,
    },
    /// The multiplier of a loop.
    Multiplier {
        /// The loop's number, from 0.
        number: u32,
        /// The multiplier, in cycles.
        amount: u64,
    },
    /// The price of a total, version 2.
    Total {
        /// The address of the total's loops.
        address: u32,
        /// The price, in cycles.
        amount: u64,
    },
    /// The bound.
    Bound {
        /// The bound, in cycles.
        amount: u64,
    },
    /// The text ends.
    End,
}
