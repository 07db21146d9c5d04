//! What the numbers of a certificate charge and pay, worked out once for an unfolding.
#![tactic(auto)]

mod bound;
mod edges;
mod events;
mod loops;
mod numbers;
mod shape;
mod start;
mod totals;

pub use bound::{has_bound, has_start};
pub use edges::{EdgePrices, edge_prices};
pub use events::{ChargeTable, event_charges};
pub use numbers::has_small_numbers;
pub use shape::has_shape;
pub use totals::{TotalCounts, total_counts};
