//! Why a text is not read.

use thiserror::Error;

/// A text that is the text of no valid instruction at the address.
#[derive(Clone, Copy, Debug, PartialEq, Eq, Error)]
#[error("no instruction has this text at this address")]
pub struct Spelling;
