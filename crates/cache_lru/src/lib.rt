//! A concrete instruction cache that replaces the least recently used line.
#![tactic(auto)]

mod laws;
mod lru;
mod refusal;
mod set;

pub use laws::{access_keeps_cache, accessed_is_youngest, second_access_hits};
pub use lru::Lru;
pub use refusal::LruError;
