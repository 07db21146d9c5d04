//! Laws of the path problem. Each function does nothing: its contract is the law, for every graph.
ghost use Rattle.path_problem.specs.Law.{PricesBoundWalks};

/// Potentials that meet the inequalities bound every walk that keeps to the counts and totals.
///
/// No limit on the number of vertices or on weights is asked for, and nothing of how loops are nested is used.
pub fn prices_bound_walks()
    ensures { PricesBoundWalks }
{}
