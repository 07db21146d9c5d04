use wx_text::List;

/// The greatest price and potential: 10^18.
pub const LARGEST: u64 = 1_000_000_000_000_000_000;

/// An arc between two vertices.
#[derive(Clone, Copy, Debug)]
pub struct Arc {
    /// The vertex that the arc leaves.
    pub from: u32,
    /// The vertex that it leads to.
    pub to: u32,
    /// What a walk over the arc costs, before prices.
    pub weight: i128,
}

/// A loop of a graph.
#[derive(Debug, Drop)]
pub struct LoopArcs {
    /// The vertices inside the loop.
    pub members: List<u32>,
    /// The numbers of its back arcs, each of which begins a further turn.
    pub back: List<u64>,
    /// The numbers of the arcs that enter it from outside.
    pub entries: List<u64>,
    /// How many back arcs a walk may take from one entry to the next.
    pub maxcount: u64,
    /// The position among the graph's totals of the one that counts its back arcs, if there is one.
    pub total: Option<u32>,
}

/// A graph whose vertices and arcs are numbered from 0.
#[derive(Debug, Drop)]
pub struct Graph {
    /// For each vertex what a walk that ends there costs besides.
    pub finish: List<i128>,
    /// The arcs in the order of their numbers.
    pub arcs: List<Arc>,
    /// The loops, inner before outer.
    pub loops: List<LoopArcs>,
    /// How many back arcs of all the loops of a total a walk may take altogether.
    pub totals: List<u64>,
    /// The vertex at which the walks that count begin.
    pub start: u32,
    /// The loop that the start is in from the beginning, as its head, if there is one.
    pub origin: Option<u32>,
}

/// What a back arc costs: a price for each loop and one for each total.
#[derive(Debug, Drop)]
pub struct LoopPrices {
    /// In the order of the graph's loops.
    pub loops: List<u64>,
    /// In the order of the graph's totals.
    pub totals: List<u64>,
}
