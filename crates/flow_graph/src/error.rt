ghost use Rattle.std.specs.Prelude.{◌≡◌};
ghost use Rattle.flow_graph.specs.declared.error.FlowError.TheVariants as refusal;

use std::alloc::{AllocError, AllocFailed};
use thiserror::Error;
use wx_base::NoMemory;

/// Why an image with these facts has no functions, blocks and loops that can be analysed. The variants stand in the
/// order in which their causes are looked for; a refusal is the first whose cause stands, and of one kind that with
/// the least address.
#[derive(Debug, PartialEq, Eq, Drop, Error)]
pub enum FlowError {
    /// Memory ran out; nothing is said of the image.
    #[error("out of memory")]
    NoMemory,
    /// A word that is reached is no instruction of the subset.
    #[error("word {word:08x} at {addr:08x} is no instruction of the subset")]
    Unsupported {
        /// Its address.
        addr: u32,
        /// The word.
        word: u32,
    },
    /// The start, or the address behind an instruction that may go on there, is not that of a word of code.
    #[error("no word of code stands at {addr:08x}, where a run may come")]
    LeavesCode {
        /// The address where no code stands.
        addr: u32,
    },
    /// The facts list no target for an indirect jump or a call by register.
    #[error("no targets are listed for the jump or call at {addr:08x}")]
    IndirectNoTargets {
        /// The address of the jump or call.
        addr: u32,
    },
    /// A direct or listed target of a jump or call is not the address of a word of code.
    #[error("{target:08x}, a target of the jump or call at {addr:08x}, is no code")]
    BadTarget {
        /// The address of the jump or call.
        addr: u32,
        /// The target.
        target: u32,
    },
    /// A call leads back to itself.
    #[error("the call at {addr:08x} is recursive")]
    Recursion {
        /// The address of the call.
        addr: u32,
    },
    /// Ways of a function that are no back edges make a cycle: a loop has no head that each path into it passes.
    #[error("the flow at {addr:08x} is irreducible")]
    Irreducible {
        /// The least address on such a cycle.
        addr: u32,
    },
    /// No fact bounds the loop of a head.
    #[error("the loop at {addr:08x} has no bound")]
    LoopNoBound {
        /// The address of the head.
        addr: u32,
    },
    /// The functions have more than 16,384 blocks together.
    #[error("the program has more than 16384 blocks")]
    TooManyBlocks,
}

impl From<NoMemory> for FlowError {
    ghost from_gives = { λ _ e. e ≡ refusal.NoMemory };

    fn from(_error: NoMemory) -> FlowError {
        FlowError::NoMemory
    }
}

impl From<AllocError> for FlowError {
    ghost from_gives = { λ _ e. e ≡ refusal.NoMemory };

    fn from(_error: AllocError) -> FlowError {
        FlowError::NoMemory
    }
}

impl<T: Drop> From<AllocFailed<T>> for FlowError {
    ghost from_gives = { λ _ e. e ≡ refusal.NoMemory };

    fn from(_error: AllocFailed<T>) -> FlowError {
        FlowError::NoMemory
    }
}
