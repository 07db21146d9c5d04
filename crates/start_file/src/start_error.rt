ghost use Rattle.std.specs.Prelude.{◌≡◌};
ghost use Rattle.start_file.specs.declared.start_error.StartError.TheVariants as refusal;

use std::alloc::{AllocError, AllocFailed};
use thiserror::Error;
use wx_base::NoMemory;

/// Why a run can't start from a text. `Line` comes before `NotACache`.
#[derive(Debug, PartialEq, Eq, Drop, Error)]
pub enum StartError {
    /// The bytes are no start text for the image and the machine.
    #[error("no line of a start text at line {line}")]
    Line {
        /// The first line that is not as it must be, or is missing, counted from 1.
        line: u64,
    },
    /// The lines that the text gives a set of the cache are no list of lines of that set. It is the first such set.
    #[error("the lines of set {set} are no list of lines of that set")]
    NotACache {
        /// The set's number, from 0.
        set: u64,
    },
    /// Memory ran out; nothing is said of the text.
    #[error("out of memory")]
    NoMemory,
}

impl From<NoMemory> for StartError {
    ghost from_gives = { λ _ e. e ≡ refusal.NoMemory };

    fn from(_: NoMemory) -> StartError {
        StartError::NoMemory
    }
}

impl From<AllocError> for StartError {
    ghost from_gives = { λ _ e. e ≡ refusal.NoMemory };

    fn from(_: AllocError) -> StartError {
        StartError::NoMemory
    }
}

impl<T: Drop> From<AllocFailed<T>> for StartError {
    ghost from_gives = { λ _ e. e ≡ refusal.NoMemory };

    fn from(_: AllocFailed<T>) -> StartError {
        StartError::NoMemory
    }
}
