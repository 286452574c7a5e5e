// Why instructions are not encoded.

ghost use Rattle.std.specs.Prelude.{◌≡◌};

use std::alloc::{AllocError, AllocFailed};
use thiserror::Error;

/// Why instructions have no bytes.
#[derive(Clone, Copy, Debug, PartialEq, Eq, Error)]
pub enum EncodeFault {
    /// A target that is the number of no instruction.
    #[error("13 BadTarget")]
    BadTarget,
    /// A branch whose target is farther than 16 bits can say.
    #[error("14 BranchTooFar")]
    BranchTooFar,
    /// The code would have more than 65,535 bytes.
    #[error("15 CodeTooLong")]
    CodeTooLong,
    /// A growth was refused.
    #[error("61 OutOfMemory")]
    OutOfMemory,
}

impl From<AllocError> for EncodeFault {
    ghost use Rattle.jm_encode.specs.declared.fault.EncodeFault.TheVariants.{OutOfMemory};

    ghost from_gives = { λ _ fault. fault ≡ OutOfMemory };

    fn from(_error: AllocError) -> EncodeFault {
        EncodeFault::OutOfMemory
    }
}

impl<T: Drop> From<AllocFailed<T>> for EncodeFault {
    ghost use Rattle.jm_encode.specs.declared.fault.EncodeFault.TheVariants.{OutOfMemory};

    ghost from_gives = { λ _ fault. fault ≡ OutOfMemory };

    fn from(_error: AllocFailed<T>) -> EncodeFault {
        EncodeFault::OutOfMemory
    }
}
