ghost use Rattle.std.specs.Prelude.{◌≡◌};
ghost use Rattle.cert_items.specs.declared.items_error.ItemsError.TheVariants as refusal;

use std::alloc::{AllocError, AllocFailed};
use thiserror::Error;
use wx_text::NoMemory;

/// Why lines tell no certificate. The first line with a fault decides, and in it `Number` comes before `Order`.
#[derive(Debug, PartialEq, Eq, Drop, Error)]
pub enum ItemsError {
    /// A number has a leading zero or is out of its range.
    #[error("line {line} has a number that is too large or begins with a zero")]
    Number {
        /// The line, counted from 1.
        line: u64,
    },
    /// What the line tells does not stand in order.
    #[error("line {line} is out of order")]
    Order {
        /// The line, counted from 1.
        line: u64,
    },
    /// Memory ran out; nothing is said of the lines.
    #[error("out of memory")]
    NoMemory,
}

impl From<NoMemory> for ItemsError {
    ghost from_gives = { λ _ e. e ≡ refusal.NoMemory };

    fn from(_: NoMemory) -> ItemsError {
        ItemsError::NoMemory
    }
}

impl From<AllocError> for ItemsError {
    ghost from_gives = { λ _ e. e ≡ refusal.NoMemory };

    fn from(_: AllocError) -> ItemsError {
        ItemsError::NoMemory
    }
}

impl<T: Drop> From<AllocFailed<T>> for ItemsError {
    ghost from_gives = { λ _ e. e ≡ refusal.NoMemory };

    fn from(_: AllocFailed<T>) -> ItemsError {
        ItemsError::NoMemory
    }
}
