ghost use Rattle.std.specs.Prelude.{◌≡◌};
ghost use Rattle.flow_ctx.specs.declared.error.UnfoldError.TheVariants as refusal;

use std::alloc::{AllocError, AllocFailed};
use thiserror::Error;
use wx_base::NoMemory;

/// Why a program has no unfolding that can be analysed.
#[derive(Debug, PartialEq, Eq, Drop, Error)]
pub enum UnfoldError {
    /// Memory ran out; nothing is said of the program.
    #[error("out of memory")]
    NoMemory,
    /// The program has more than 4,096 blocks in their chains of calls.
    #[error("the unfolding has more than 4096 nodes")]
    TooManyNodes,
}

impl From<NoMemory> for UnfoldError {
    ghost from_gives = { λ _ e. e ≡ refusal.NoMemory };

    fn from(_error: NoMemory) -> UnfoldError {
        UnfoldError::NoMemory
    }
}

impl From<AllocError> for UnfoldError {
    ghost from_gives = { λ _ e. e ≡ refusal.NoMemory };

    fn from(_error: AllocError) -> UnfoldError {
        UnfoldError::NoMemory
    }
}

impl<T: Drop> From<AllocFailed<T>> for UnfoldError {
    ghost from_gives = { λ _ e. e ≡ refusal.NoMemory };

    fn from(_error: AllocFailed<T>) -> UnfoldError {
        UnfoldError::NoMemory
    }
}
