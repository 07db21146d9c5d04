ghost use Rattle.std.specs.Prelude.{◌≡◌};
ghost use Rattle.elf_image.specs.declared.error.ElfError.TheVariants as refusal;

use std::alloc::{AllocError, AllocFailed};
use thiserror::Error;

/// Why bytes are no image that this project reads. The variants stand in the order in which their
/// causes are looked for; a refusal is the first whose cause stands.
#[derive(Debug, PartialEq, Eq, Drop, Error)]
pub enum ElfError {
    /// Memory ran out; nothing is said of the bytes.
    #[error("out of memory")]
    NoMemory,
    /// The file ends within the file header, after `at` bytes.
    #[error("the file ends within its header, after {at} bytes")]
    Short {
        /// The length of the file in bytes.
        at: u64,
    },
    /// The first four bytes are not those of an ELF file.
    #[error("the file is no ELF file")]
    NotElf,
    /// The file's class is not 32 bit.
    #[error("class {found} is not 1, 32 bit")]
    Class {
        /// The class that the file names.
        found: u8,
    },
    /// The file's byte order is not little-endian.
    #[error("byte order {found} is not 1, little-endian")]
    Order {
        /// The order that the file names.
        found: u8,
    },
    /// The file is no executable.
    #[error("type {found} is not 2, an executable")]
    Kind {
        /// The type that the file names.
        found: u16,
    },
    /// The file is not for ARM.
    #[error("machine {found} is not 40, ARM")]
    Machine {
        /// The machine that the file names.
        found: u16,
    },
    /// A program header has the wrong size, lies outside the file or cannot be loaded.
    #[error("program header {index} cannot be loaded")]
    Header {
        /// The header's place in the table, from 0.
        index: u64,
    },
    /// Two load headers fill the same address.
    #[error("program headers {a} and {b} overlap")]
    Overlap {
        /// The first header's place in the table.
        a: u64,
        /// The second header's place in the table.
        b: u64,
    },
    /// The first instruction would be a Thumb instruction.
    #[error("the entry is Thumb code")]
    ThumbEntry,
    /// A section header has the wrong size or lies outside the file, or a symbol table is damaged.
    #[error("section header {index} has no readable symbols")]
    Symbols {
        /// The section header's place in the table, from 0.
        index: u64,
    },
    /// The file has more bytes than this project reads.
    #[error("the file has {bytes} bytes, more than 16777216")]
    TooLarge {
        /// The length of the file in bytes.
        bytes: u64,
    },
}

impl From<AllocError> for ElfError {
    ghost from_gives = { λ _ e. e ≡ refusal.NoMemory };

    fn from(_error: AllocError) -> ElfError {
        ElfError::NoMemory
    }
}

impl<T: Drop> From<AllocFailed<T>> for ElfError {
    ghost from_gives = { λ _ e. e ≡ refusal.NoMemory };

    fn from(_error: AllocFailed<T>) -> ElfError {
        ElfError::NoMemory
    }
}
