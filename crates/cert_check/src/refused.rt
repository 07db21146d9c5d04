ghost use Rattle.std.specs.Prelude.{◌≡◌};
ghost use Rattle.cert_check.specs.declared.refused.Refused.TheVariants as refusal;

use std::alloc::{AllocError, AllocFailed};
use thiserror::Error;
use wx_text::NoMemory;

/// Why a certificate is not accepted.
#[derive(Debug, PartialEq, Eq, Drop, Error)]
pub enum Refused {
    /// It is not valid: the first rule that it breaks, in the order 0, 4, 1, 2, 3, 5.
    #[error("rule {rule} is broken at vector {vector} of node {node}")]
    Rejected {
        /// The number of the rule.
        rule: u64,
        /// The first node that breaks it, for rules 2 and 3; else 0.
        node: u64,
        /// The first vector of the node that does, for rules 2 and 3; else 0.
        vector: u64,
    },
    /// Memory ran out; nothing is said of the certificate.
    #[error("out of memory")]
    NoMemory,
}

impl From<NoMemory> for Refused {
    ghost from_gives = { λ _ e. e ≡ refusal.NoMemory };

    fn from(_error: NoMemory) -> Refused {
        Refused::NoMemory
    }
}

impl From<AllocError> for Refused {
    ghost from_gives = { λ _ e. e ≡ refusal.NoMemory };

    fn from(_error: AllocError) -> Refused {
        Refused::NoMemory
    }
}

impl<T: Drop> From<AllocFailed<T>> for Refused {
    ghost from_gives = { λ _ e. e ≡ refusal.NoMemory };

    fn from(_error: AllocFailed<T>) -> Refused {
        Refused::NoMemory
    }
}
