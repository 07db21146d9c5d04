ghost use Rattle.std.specs.Prelude.{◌≡◌};
ghost use Rattle.cert_text.specs.declared.cert_error.CertError.TheVariants as refusal;

use std::alloc::{AllocError, AllocFailed};
use thiserror::Error;
use wx_text::NoMemory;

/// Why bytes are no certificate. `Syntax` and `NoEnd` come before all others; else the first line with a fault decides,
/// and in it `Number` comes before `Order`.
#[derive(Debug, PartialEq, Eq, Drop, Error)]
pub enum CertError {
    /// No text goes on as the bytes do.
    #[error("no certificate from byte {at} on")]
    Syntax {
        /// How many bytes of the front begin a text.
        at: u64,
    },
    /// The bytes end before the text does.
    #[error("the certificate has no end")]
    NoEnd,
    /// A number has a leading zero or is out of its range.
    #[error("line {line} has a number that is too large or begins with a zero")]
    Number {
        /// The line, counted from 1.
        line: u64,
    },
    /// What the line tells does not stand in order.
    #[error("line {line} is out of order")]
    Order {
        /// The line, counted from 1.
        line: u64,
    },
    /// Memory ran out; nothing is said of the bytes.
    #[error("out of memory")]
    NoMemory,
}

impl From<NoMemory> for CertError {
    ghost from_gives = { λ _ e. e ≡ refusal.NoMemory };

    fn from(_: NoMemory) -> CertError {
        CertError::NoMemory
    }
}

impl From<AllocError> for CertError {
    ghost from_gives = { λ _ e. e ≡ refusal.NoMemory };

    fn from(_: AllocError) -> CertError {
        CertError::NoMemory
    }
}

impl<T: Drop> From<AllocFailed<T>> for CertError {
    ghost from_gives = { λ _ e. e ≡ refusal.NoMemory };

    fn from(_: AllocFailed<T>) -> CertError {
        CertError::NoMemory
    }
}
