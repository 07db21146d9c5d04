//! What the blocks of an unfolding's nodes hand on from vectors, each worked out once for a block and a vector.
#![tactic(auto)]

mod exits;
mod laws;
mod work;

pub use exits::{finish_of, leave_from};
pub use laws::exits_stay;
pub use work::Work;
