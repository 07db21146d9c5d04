ghost use Rattle.std.specs.Prelude.{◌≡◌};
ghost use Rattle.path_problem.specs.declared.path_error.PathError.TheVariants as refusal;

use std::alloc::{AllocError, AllocFailed};
use thiserror::Error;
use wx_text::NoMemory;

/// Why a path problem has no prices or no potentials.
#[derive(Debug, PartialEq, Eq, Drop, Error)]
pub enum PathError {
    /// No number up to `LARGEST` keeps each closed walk inside a loop from gaining.
    #[error("loop {number} needs a price above 10^18")]
    LoopLarge {
        /// The number of the first such loop.
        number: u64,
    },
    /// A walk from a vertex comes to more than `LARGEST`.
    #[error("vertex {number} has a potential above 10^18")]
    VertexLarge {
        /// The number of the first such vertex.
        number: u64,
    },
    /// Memory ran out; nothing is said of the graph.
    #[error("out of memory")]
    NoMemory,
}

impl From<NoMemory> for PathError {
    ghost from_gives = { λ _ e. e ≡ refusal.NoMemory };

    fn from(_: NoMemory) -> PathError {
        PathError::NoMemory
    }
}

impl From<AllocError> for PathError {
    ghost from_gives = { λ _ e. e ≡ refusal.NoMemory };

    fn from(_: AllocError) -> PathError {
        PathError::NoMemory
    }
}

impl<T: Drop> From<AllocFailed<T>> for PathError {
    ghost from_gives = { λ _ e. e ≡ refusal.NoMemory };

    fn from(_: AllocFailed<T>) -> PathError {
        PathError::NoMemory
    }
}
