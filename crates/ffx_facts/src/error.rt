ghost use Rattle.std.specs.Prelude.{◌≡◌};
ghost use Rattle.ffx_facts.specs.declared.error.FactsError.TheVariants as refusal;

use std::alloc::{AllocError, AllocFailed};
use thiserror::Error;

/// Why bytes are no facts that this project reads.
///
/// `Syntax` comes before all others. Of these, the first element of the file that has a fault decides; in an element
/// the faults are looked for in the order of the variants from `Number` on.
#[derive(Debug, PartialEq, Eq, Drop, Error)]
pub enum FactsError {
    /// Memory ran out; nothing is said of the bytes.
    #[error("out of memory")]
    NoMemory,
    /// The bytes are no facts file.
    #[error("no facts file can begin with more than the first {at} bytes")]
    Syntax {
        /// The length of the longest front of the bytes that begins a facts file.
        at: u64,
    },
    /// An attribute that counts is no number up to 4294967295, or symbol and offset pass this number together.
    #[error("the element at byte {at} has a wrong number")]
    Number {
        /// The place of the element's `<` in the file, from 0.
        at: u64,
    },
    /// An element that needs an address has neither an address nor a label.
    #[error("the element at byte {at} has no address")]
    NoAddress {
        /// The place of the element's `<` in the file, from 0.
        at: u64,
    },
    /// The label of an element names no symbol.
    #[error("the element at byte {at} has the label of no symbol")]
    NoSymbol {
        /// The place of the element's `<` in the file, from 0.
        at: u64,
    },
    /// Two facts of one kind speak of the same address.
    #[error("two facts of one kind at address {address:08x}")]
    Twice {
        /// The address.
        address: u32,
    },
}

impl From<AllocError> for FactsError {
    ghost from_gives = { λ _ e. e ≡ refusal.NoMemory };

    fn from(_error: AllocError) -> FactsError {
        FactsError::NoMemory
    }
}

impl<T: Drop> From<AllocFailed<T>> for FactsError {
    ghost from_gives = { λ _ e. e ≡ refusal.NoMemory };

    fn from(_error: AllocFailed<T>) -> FactsError {
        FactsError::NoMemory
    }
}
