ghost use Rattle.std.specs.Prelude.{◌≡◌};
ghost use Rattle.cert_lines.specs.declared.lines_error.LinesError.TheVariants as refusal;

use std::alloc::{AllocError, AllocFailed};
use thiserror::Error;
use wx_text::NoMemory;

/// Why bytes are not made of the lines of a certificate's text.
#[derive(Debug, PartialEq, Eq, Drop, Error)]
pub enum LinesError {
    /// No text goes on as the bytes do.
    #[error("no certificate from byte {at} on")]
    Syntax {
        /// How many bytes of the front begin a text.
        at: u64,
    },
    /// The bytes end before the text does.
    #[error("the certificate has no end")]
    NoEnd,
    /// Memory ran out; nothing is said of the bytes.
    #[error("out of memory")]
    NoMemory,
}

impl From<NoMemory> for LinesError {
    ghost from_gives = { λ _ e. e ≡ refusal.NoMemory };

    fn from(_: NoMemory) -> LinesError {
        LinesError::NoMemory
    }
}

impl From<AllocError> for LinesError {
    ghost from_gives = { λ _ e. e ≡ refusal.NoMemory };

    fn from(_: AllocError) -> LinesError {
        LinesError::NoMemory
    }
}

impl<T: Drop> From<AllocFailed<T>> for LinesError {
    ghost from_gives = { λ _ e. e ≡ refusal.NoMemory };

    fn from(_: AllocFailed<T>) -> LinesError {
        LinesError::NoMemory
    }
}
