ghost use Rattle.std.specs.Prelude.{◌≡◌};
ghost use Rattle.xdd_ops.specs.declared.diagram_error.DiagramError.TheVariants as refusal;

use std::alloc::{AllocError, AllocFailed};
use thiserror::Error;
use wx_text::NoMemory;

/// Why bytes are no text of a diagram. The causes are looked for in the order of the variants, each over the whole
/// text.
#[derive(Debug, PartialEq, Eq, Drop, Error)]
pub enum DiagramError {
    /// The bytes are not `dd N` and N lines.
    #[error("no diagram from byte {at} on")]
    Syntax {
        /// How many bytes stand before the fault: before the first line that is none, or before what stands behind the
        /// last line. A text that ends too early has its fault at its end.
        at: u64,
    },
    /// A line repeats an earlier one, or both its branches are one.
    #[error("line {line} is not needed")]
    NotReduced {
        /// The number of the line, from 1, where `dd N` is the first.
        line: u64,
    },
    /// A line is not the one that the walk from the last line finishes there.
    #[error("line {line} is out of order")]
    Order {
        /// The number of the line, from 1, where `dd N` is the first.
        line: u64,
    },
    /// Memory ran out; nothing is said of the bytes.
    #[error("out of memory")]
    NoMemory,
}

impl From<NoMemory> for DiagramError {
    ghost from_gives = { λ _ e. e ≡ refusal.NoMemory };

    fn from(_: NoMemory) -> DiagramError {
        DiagramError::NoMemory
    }
}

impl From<AllocError> for DiagramError {
    ghost from_gives = { λ _ e. e ≡ refusal.NoMemory };

    fn from(_: AllocError) -> DiagramError {
        DiagramError::NoMemory
    }
}

impl<T: Drop> From<AllocFailed<T>> for DiagramError {
    ghost from_gives = { λ _ e. e ≡ refusal.NoMemory };

    fn from(_: AllocFailed<T>) -> DiagramError {
        DiagramError::NoMemory
    }
}
