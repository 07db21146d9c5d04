ghost use Rattle.std.specs.Prelude.{◌≡◌};
ghost use Rattle.cache_lru.specs.declared.refusal.LruError.TheVariants as refusal;

use std::alloc::AllocError;
use thiserror::Error;

/// Why lists are no cache.
#[derive(Debug, PartialEq, Eq, Drop, Error)]
pub enum LruError {
    /// The list of this set has a line twice, a line of another set, or more lines than ways. It is the first such set.
    #[error("the list of set {set} is no list of lines of that set")]
    NotACache {
        /// The set's number, from 0.
        set: u64,
    },
    /// Memory ran out; nothing is said of the lists.
    #[error("out of memory")]
    NoMemory,
}

impl From<AllocError> for LruError {
    ghost from_gives = { λ _ e. e ≡ refusal.NoMemory };

    fn from(_error: AllocError) -> LruError {
        LruError::NoMemory
    }
}
