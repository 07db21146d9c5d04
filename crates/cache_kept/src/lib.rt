//! Which lines of a flow are kept in a stay in a part of it, one access at a time.
//!
//! A search goes back from an access and notes the other lines of the set that it meets, until it comes to the line
//! itself or has met as many as there are ways. So it looks at no more of the part than a cache can hold.
#![tactic(auto)]

mod kept;
mod known;
mod look;
mod newer;
mod search;
mod stretch;
mod walk;
mod ways;

pub use kept::is_kept;
pub use stretch::Stretch;
pub use ways::Ways;
