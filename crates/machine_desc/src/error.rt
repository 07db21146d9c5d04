ghost use Rattle.std.specs.Prelude.{◌≡◌};
ghost use Rattle.machine_desc.specs.declared.error.MachineError.TheVariants as refusal;

use std::alloc::{AllocError, AllocFailed};
use thiserror::Error;
use wx_base::{NoMemory, Text};

/// Why bytes describe no machine. The variants from `Toml` on stand in the order in which their causes are looked for;
/// a refusal is the first whose cause stands.
///
/// A key is named as it is written with dots and without quotes: `fetch.hit`, or `region.0.first` of the first region.
#[derive(Debug, PartialEq, Eq, Drop, Error)]
pub enum MachineError {
    /// Memory ran out; nothing is said of the bytes.
    #[error("out of memory")]
    NoMemory,
    /// The bytes are no UTF-8, or no TOML document.
    #[error("the description is no TOML document")]
    Toml,
    /// The document has a key that no description has.
    #[error("the description has a key that is not known")]
    Unknown {
        /// The least such key, by its bytes.
        key: Text,
    },
    /// A key is missing.
    #[error("a key of the description is missing")]
    Missing {
        /// The first such key.
        key: Text,
    },
    /// A key holds a value of another kind than it should.
    #[error("a key of the description holds a value of another kind")]
    Kind {
        /// The first such key.
        key: Text,
    },
    /// A key holds a number outside its range, or no power of two where one is asked for. With the key `region` there
    /// are more regions than may be.
    #[error("a number of the description, {value}, lies outside its range")]
    Range {
        /// The first such key.
        key: Text,
        /// The number that it holds, or the number of regions.
        value: i64,
    },
    /// Two regions have an address in common.
    #[error("the regions {a} and {b} have an address in common")]
    Regions {
        /// The place of the first region of the least such pair, from 0.
        a: u64,
        /// The place of the second.
        b: u64,
    },
}

impl From<NoMemory> for MachineError {
    ghost from_gives = { λ _ e. e ≡ refusal.NoMemory };

    fn from(_: NoMemory) -> MachineError {
        MachineError::NoMemory
    }
}

impl From<AllocError> for MachineError {
    ghost from_gives = { λ _ e. e ≡ refusal.NoMemory };

    fn from(_: AllocError) -> MachineError {
        MachineError::NoMemory
    }
}

impl<T: Drop> From<AllocFailed<T>> for MachineError {
    ghost from_gives = { λ _ e. e ≡ refusal.NoMemory };

    fn from(_: AllocFailed<T>) -> MachineError {
        MachineError::NoMemory
    }
}
