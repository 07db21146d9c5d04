//! The path problem on plain graphs: the least prices of loops and totals, potentials, their check, and what that is
//! worth.
#![tactic(auto)]

mod bad_path;
mod chain;
mod choice;
mod inequalities;
mod laws;
mod layout;
mod least;
mod needs;
mod net;
mod part;
mod path_error;
mod potential;
mod solution;
mod window;

pub use bad_path::BadPath;
pub use choice::{Choice, choose};
pub use inequalities::check;
pub use laws::prices_bound_walks;
pub use needs::prices;
pub use path_error::PathError;
pub use potential::potentials;
